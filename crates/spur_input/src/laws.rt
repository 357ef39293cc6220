//! What ties accepted inputs and refusals to one another. Nothing runs here: each function stands for what its contract
//! says of every input.

ghost use Rattle.spur_input.specs.Laws.{AssembledIsNotRefused, CutAtTrace, JudgeableIsNotRefused, LoadableIsNotRefused, OneIsAssembled, OneIsLoadable, OneRefusalToAssemble, OneRefusalToCheck, OneRefusalToRun, OneVerdict, TextIsAssembledOrRefused, TextIsLoadableOrRefused};

/// The two parts of an input are all of it, in their order. In the first no line begins with a percent sign. The second
/// is empty, or begins with one where a line begins.
pub fn cut_at_trace()
    ensures { CutAtTrace }
{}

/// An input has one refusal at most, for each of the three calls.
pub fn one_refusal()
    ensures run { OneRefusalToRun }
    ensures assemble { OneRefusalToAssemble }
    ensures check { OneRefusalToCheck }
{}

/// What is accepted is not refused, for each of the three calls.
pub fn accepted_is_not_refused()
    ensures run { LoadableIsNotRefused }
    ensures assemble { AssembledIsNotRefused }
    ensures check { JudgeableIsNotRefused }
{}

/// An input is the program of one unit at most, a text says one at most, and a trace has one verdict at most.
pub fn one_is_accepted()
    ensures run { OneIsLoadable }
    ensures assemble { OneIsAssembled }
    ensures check { OneVerdict }
{}

/// A text within the limit is accepted or refused.
pub fn texts_are_answered()
    ensures run { TextIsLoadableOrRefused }
    ensures assemble { TextIsAssembledOrRefused }
{}
