// How the lines of a script are read.
ghost use Rattle.qm_history.specs.CourseLaws.{ActsAreRead, CommandReader, CommandsAreRead, ItemReader, LoneActsAreRead, StepLinesFetch};

/// A command of SYSTEM asks for what its text does, and an act whose word is served for what it does where a script is served. But a line behind which
/// steps may follow asks for the node's runs, where it keeps some.
pub fn lines_are_read_as_they_are_served()
    ensures commands { (items_mean : ItemReader) (command_means : CommandReader) → CommandsAreRead items_mean command_means }
    ensures acts { ActsAreRead }
    ensures alone { LoneActsAreRead }
    ensures steps { (items_mean : ItemReader) (command_means : CommandReader) → StepLinesFetch items_mean command_means }
{}
