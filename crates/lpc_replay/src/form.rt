// What a replay sends of a script.

/// What a replay sends of each line.
#[derive(Clone, Copy)]
pub enum Form {
    /// What the line tells.
    Transcript,
    /// What the line tells, and behind that what became of the world's rows in it.
    States,
}
