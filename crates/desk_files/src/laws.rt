//! Theorems, stated as contracts of functions with no body.
ghost use Rattle.desk_files.specs.DeskFiles.{HeldLeaves, StoppedLeaves};

use sqlite_disk::Disk;

/// Files that keep a desk leave at most its history, with no request pending.
pub fn kept_leaves<D: Disk>()
    ensures { HeldLeaves D.Disk }
{}

/// The files of a desk that was stopped leave at most what a crash of the desk left.
pub fn stopped_leaves<D: Disk>()
    ensures { StoppedLeaves D.Disk }
{}
