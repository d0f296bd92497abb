// Storms, and what is sent for them. The transcripts of the smallest two were worked out by hand, and the sums of their
// bytes taken from these; tests/program.py holds a longer one against the replay of the same script.
use crate::common::{answered, runs, sink, source};
use std::alloc::Global;
use std::process::Abort;
use std::test::Fail;

const NO_ROUND: &str = "storm lines=52 entries=60 objects=0 replies=0 mismatches=0 sum=000263b8\n";

const TWO_ROUNDS: &str =
    "storm lines=58 entries=67 objects=0 replies=1 mismatches=1 sum=0002da73\n";

// What is sent for the words of a storm, which reads nothing.
fn storms(rt: &impl Abort, alloc: Global, count: &str, seed: &str, text: &str) -> Result<(), Fail> {
    let mut source = source(alloc, b"boot 20 24\n", 7, &[1])?;
    let mut sink = sink(alloc, 4096, &[])?;
    let words = ["storm", count, seed];
    runs(rt, alloc, &words, &mut source, &mut sink, 0, text)?;
    assert!(rt; source.asked().widest == 0);
    Ok(())
}

#[test]
fn a_storm_without_a_round_connects_and_ends(rt: HostRuntime) -> Result<(), Fail> {
    storms(&rt, rt.alloc(), "0", "7", NO_ROUND)
}

// One datagram, and one request that is answered first with an identifier that fits no request.
#[test]
fn two_rounds_have_one_reply_and_one_mismatch(rt: HostRuntime) -> Result<(), Fail> {
    storms(&rt, rt.alloc(), "2", "0", TWO_ROUNDS)?;
    storms(&rt, rt.alloc(), "0x2", "0x00000000", TWO_ROUNDS)
}

// The words, and what is sent for other ones.
fn refused(rt: &impl Abort, alloc: Global, words: &[&str]) -> Result<(), Fail> {
    answered(
        rt,
        alloc,
        words,
        b"boot 20 24\n",
        64,
        "usage: ntlpc COMMAND [WORDS]\n",
    )
}

#[test]
fn words_that_are_no_storm_are_refused(rt: HostRuntime) -> Result<(), Fail> {
    let alloc = rt.alloc();
    refused(&rt, alloc, &["storm"])?;
    refused(&rt, alloc, &["storm", "2"])?;
    refused(&rt, alloc, &["storm", "2", "0", "0"])?;
    refused(&rt, alloc, &["storm", "200001", "0"])?;
    refused(&rt, alloc, &["storm", "02", "0"])?;
    refused(&rt, alloc, &["storm", "2", "0x"])?;
    refused(&rt, alloc, &["storm", "2", "4294967296"])?;
    refused(&rt, alloc, &["storm", "2", ""])?;
    refused(&rt, alloc, &["Storm", "2", "0"])
}

// A sink that fails its second call has taken the first 5 bytes.
#[test]
fn a_storm_over_a_sink_that_fails(rt: HostRuntime) -> Result<(), Fail> {
    let alloc = rt.alloc();
    let mut source = source(alloc, b"", 7, &[])?;
    let mut sink = sink(alloc, 4096, &[2])?;
    let words = ["storm", "0", "7"];
    runs(&rt, alloc, &words, &mut source, &mut sink, 4, "storm")
}
