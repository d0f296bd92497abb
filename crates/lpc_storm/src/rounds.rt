// The lines of a storm in order: the opening, the connections, the rounds and the ending.
ghost use Rattle.std.specs.Prelude.{◌≡◌, ℕ, ◌≤◌, ◌<◌, ◌+◌};
ghost use Rattle.std.specs.List.{All};
ghost use Rattle.lpc_storm.specs.Generated as storm;

use crate::line::{PORT, StormLine};
use std::marker::Model;

/// The numbers of a storm's clients.
pub const CLIENTS: [u32; 8] = [1, 2, 3, 4, 5, 6, 7, 8];

/// How many rounds a storm has at most.
pub const ROUNDS_LIMIT: u32 = 200_000;

/// The lines that come first: the directory, the server's process, and its port.
pub fn opening() -> [StormLine; 3]
    ensures { result ≡ storm.opening }
{
    [
        StormLine::Directory,
        StormLine::BootServer,
        StormLine::Create,
    ]
}

/// The lines of a client's process and its connection.
pub fn connecting(client: u32) -> [StormLine; 5]
    ensures { result ≡ storm.connecting client }
{
    [
        StormLine::Boot { client },
        StormLine::Connect { client },
        StormLine::Listen,
        StormLine::Accept { client },
        StormLine::Complete { client },
    ]
}

/// The lines that come last: the server's process ends, and each client's.
pub fn ending() -> [StormLine; 9]
    ensures { result ≡ storm.ending }
{
    let end = |client: u32| StormLine::End { client };
    [
        StormLine::EndServer,
        end(1),
        end(2),
        end(3),
        end(4),
        end(5),
        end(6),
        end(7),
        end(8),
    ]
}

/// The rounds of a storm, one after the other: which client each is of, and what it sends, is drawn by a linear
/// congruential generator. The generator's factor and summand are those of Numerical Recipes; the rest is this
/// project's own.
#[derive(Drop)]
pub struct Rounds {
    drawn: u32,
    had: [u32; 8],
}

impl Model for Rounds {
    ghost use Rattle.lpc_storm.specs.Generated.{Course};

    ghost Value = { Course };

    ghost view = { λ r. record { drawn = r.drawn; had = r.had } };
}

impl Rounds {
    /// Before the first round.
    pub fn new(seed: u32) -> Rounds
        ensures { result ≡ storm.start seed }
    {
        Rounds {
            drawn: seed,
            had: [0; 8],
        }
    }

    /// The next round.
    pub fn next_round(&mut self) -> Round
        requires few { All (λ n. n < 200000) self.old.had }
        ensures lines { storm.lines_of result ≡ storm.next_round self.old }
        ensures behind { self.new ≡ storm.behind_round self.old }
    {
        self.drawn = self
            .drawn
            .wrapping_mul(1_664_525)
            .wrapping_add(1_013_904_223);
        let place = (self.drawn / 65_536 % 8) as usize;
        let identifier = 2 + self.had[place];
        self.had[place] += 1;
        Round::of(self.drawn, 1 + place as u32, identifier)
    }
}

/// The lines of a round.
#[derive(Clone, Copy)]
pub enum Round {
    /// A datagram, and its receipt.
    Datagram([StormLine; 2]),
    /// A request, its receipt and its reply.
    Answered([StormLine; 3]),
    /// A request, its receipt, a reply that doesn't fit it, and one that does.
    Mismatched([StormLine; 4]),
}

impl Round {
    /// The round of a draw, of a client with this identifier.
    #[tactic(auto, unfolding(crate::specs::Generated::round_lines))]
    fn of(draw: u32, client: u32, identifier: u32) -> Round
        requires client { client ≤ 8 }
        requires identifier { identifier < 300000 }
        ensures { storm.lines_of result ≡ storm.round_lines draw client identifier }
    {
        let bytes = draw;
        let request = StormLine::Request { client, bytes };
        let reply = StormLine::Reply {
            handle: PORT,
            client,
            identifier,
            bytes,
        };
        match draw / 16_777_216 % 4 {
            0 => Round::Datagram([StormLine::Datagram { client, bytes }, StormLine::Receive]),
            3 => Round::Mismatched([
                request,
                StormLine::Receive,
                StormLine::Reply {
                    handle: PORT,
                    client,
                    identifier: identifier + 1,
                    bytes,
                },
                StormLine::Reply {
                    handle: 4 + 4 * client,
                    client,
                    identifier,
                    bytes,
                },
            ]),
            _ => Round::Answered([request, StormLine::Receive, reply]),
        }
    }

    /// Its lines in order.
    pub fn lines(&self) -> &[StormLine]
        ensures { result.now ≡ storm.lines_of self.now }
    {
        match self {
            Round::Datagram(lines) => lines,
            Round::Answered(lines) => lines,
            Round::Mismatched(lines) => lines,
        }
    }
}
