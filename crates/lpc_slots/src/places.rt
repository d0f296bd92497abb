//! The places of a table.

ghost use Rattle.std.specs.Prelude.{◌≡◌, Some, option_copied};

/// A place of a table, with the row that stands there.
#[derive(Drop)]
pub(crate) struct Place<T> {
    /// The generation of the row's key.
    pub generation: u64,
    /// The row's value.
    pub value: T,
}

impl<T> Place<T> {
    ghost use Rattle.lpc_slots.specs.Layout.{value_for};

    /// What it holds for a generation.
    pub fn value_for(&self, generation: u64) -> Option<&T>
        ensures { option_copied result ≡ value_for generation (Some self.now) }
    {
        if generation == self.generation {
            Some(&self.value)
        } else {
            None
        }
    }
}
