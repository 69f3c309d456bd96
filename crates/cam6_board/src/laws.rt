//! Laws of jobs and their bands. Each law is the contract of a function that does nothing.
ghost use Rattle.cam6_board.specs.Laws.{BandsFollowTheMachine, BandsAreSteps, EachBandIsOneLess};
ghost use Rattle.cam6_board.specs.Laws.{JobsEnd};

/// If a job goes along a machine's cycle, each of its bands takes the job to where the machine's
/// steps take the machine.
pub fn a_band_follows_the_machine()
    ensures law { BandsFollowTheMachine }
{}

/// A job's bands, one after another, are its steps: by the words of the rules, or undone.
pub fn bands_one_after_another_are_steps()
    ensures law { BandsAreSteps }
{}

/// Each band reduces the number of bands that are left by one. It reports `LastEnd` exactly if no
/// step is left then.
pub fn each_band_leaves_one_less()
    ensures law { EachBandIsOneLess }
{}

/// A job at rest takes exactly as many bands as its steps have. After fewer bands, steps are left.
pub fn a_job_takes_the_bands_of_its_steps()
    ensures law { JobsEnd }
{}
