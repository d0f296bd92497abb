// The law of the definitions alone, on two scripts.
ghost use Rattle.lpc_model.specs.Circle.{Isolation};

/// A process learns of the processes outside its circle only what the circle's own lines and answers tell it.
///
/// For every two scripts, every list of processes and every process in it: where the list is a circle of the process in
/// both runs, and both runs have the same inputs of the list and the process, both runs have the same items of the
/// process: its lines, what it is told, the tokens and levels as which its threads come to act for clients, and the
/// directives about it, about names and about names of tokens, in the same order. The inputs are all that the list's
/// processes do, are told and are given so, and the directives about them and about both sorts of names with their
/// statuses, but for what the process itself is told and given.
///
/// So what its calls answer is told by its own calls, by the calls and answers of its circle, and by the tokens as which
/// the circle's threads act. In which lines of the script these stand, what stands between them, and what other
/// processes do is no matter. A server in the circle whose lines or entries differ because of an outsider tells of that
/// outsider, as they are among the inputs.
pub fn law_isolation()
    ensures alike { Isolation }
{}
