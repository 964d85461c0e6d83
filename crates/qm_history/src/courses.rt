// How far the course of a node has come.
ghost use Rattle.qm_history.specs.CourseLaws.{BegunCoursesGoOn, BegunCoursesReach, BegunCoursesReachOn, CoursesReportSteps, LineReader};

/// A course that was only begun has reached a state, unless its last turn was cut short of the call that comes next there. It goes
/// on by a turn of its own node that follows in that state, and reaches the next one if that turn was served whole.
pub fn begun_courses_go_on()
    ensures reached { (reads : LineReader) → BegunCoursesReach reads }
    ensures goes_on { (reads : LineReader) → BegunCoursesGoOn reads }
    ensures reaches_on { (reads : LineReader) → BegunCoursesReachOn reads }
{}

/// Each report that a node tells in a turn is of a step that it made: of its run, and what that step came to.
pub fn reports_are_of_steps()
    ensures { CoursesReportSteps }
{}
