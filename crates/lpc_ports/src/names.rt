//! How many ports name each port: as their other end, and as their connection port.

ghost use Rattle.std.specs.Prelude.{◌≡◌, ◌+◌, true};
ghost use Rattle.lpc_ports.specs.Layout.{connected_at, paired_at};
ghost use Rattle.lpc_ports.specs.Names.{GainsOne, KeepsNumber, KeepsRows, LosesOne};

use crate::rows::PortRow;
use lpc_slots::{Key, Slots};

/// One more port has this one as its other end. It answers whether that is counted: not where the port has no row.
pub(crate) fn gain_paired(ports: &mut Slots<PortRow>, named: Option<Key>) -> bool
    ensures rows { KeepsRows ports.old ports.new }
    ensures paired { result ≡ true → GainsOne paired_at ports.old ports.new named }
    ensures connected { KeepsNumber connected_at ports.old ports.new }
{
    match named {
        Some(named) => match ports.get_mut(named) {
            Some(row) => count_up(&mut row.paired),
            None => false,
        },
        None => true,
    }
}

/// One more port has this one as its connection port. It answers whether that is counted: not where the port has no
/// row.
pub(crate) fn gain_connected(ports: &mut Slots<PortRow>, named: Option<Key>) -> bool
    ensures rows { KeepsRows ports.old ports.new }
    ensures paired { KeepsNumber paired_at ports.old ports.new }
    ensures connected { result ≡ true → GainsOne connected_at ports.old ports.new named }
{
    match named {
        Some(named) => match ports.get_mut(named) {
            Some(row) => count_up(&mut row.connected),
            None => false,
        },
        None => true,
    }
}

/// One port less has this one as its other end.
pub(crate) fn lose_paired(ports: &mut Slots<PortRow>, named: Option<Key>)
    ensures rows { KeepsRows ports.old ports.new }
    ensures paired { LosesOne paired_at ports.old ports.new named }
    ensures connected { KeepsNumber connected_at ports.old ports.new }
{
    if let Some(named) = named {
        if let Some(row) = ports.get_mut(named) {
            row.paired = row.paired.saturating_sub(1);
        }
    }
}

/// One port less has this one as its connection port.
pub(crate) fn lose_connected(ports: &mut Slots<PortRow>, named: Option<Key>)
    ensures rows { KeepsRows ports.old ports.new }
    ensures paired { KeepsNumber paired_at ports.old ports.new }
    ensures connected { LosesOne connected_at ports.old ports.new named }
{
    if let Some(named) = named {
        if let Some(row) = ports.get_mut(named) {
            row.connected = row.connected.saturating_sub(1);
        }
    }
}

/// The numbers tell of no port that names the one of this row.
pub(crate) fn is_unnamed(row: &PortRow) -> bool
    ensures paired { result ≡ true → row.now.paired ≡ 0 }
    ensures connected { result ≡ true → row.now.connected ≡ 0 }
{
    row.paired == 0 && row.connected == 0
}

// One more, where the number has room for it.
fn count_up(number: &mut usize) -> bool
    ensures { result ≡ true → number.new ≡ number.old + 1 }
{
    match number.checked_add(1) {
        Some(more) => {
            *number = more;
            true
        }
        None => false,
    }
}
