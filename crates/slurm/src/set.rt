//! Sets of named SLURM files (RFC 8416 section 4.2).
ghost use Rattle.std.specs.Prelude.{◌≡◌, ◌≤◌, ◌↔◌, List, length, Err, IsOk, IfOk, IsPermutation};
ghost use Rattle.slurm.specs.SlurmSets.{AreFiles, AreNamedOnce, RiseByName};
ghost use Rattle.slurm.specs.declared.set.NamedSlurm.{NamedSlurm};
ghost use Rattle.slurm.specs.declared.set.TheConstants.{MOST_FILES};

use crate::Slurm;
use addr::Name;
use sorted_items::sort_each_once;
use std::alloc::AllocError;
use std::marker::Model;
use thiserror::Error;

/// How many files a set may have.
pub const MOST_FILES: usize = 16;

/// A SLURM file, and the name that it has in a set.
#[derive(Debug, Drop)]
pub struct NamedSlurm {
    pub name: Name,
    pub file: Slurm,
}

impl Clone for NamedSlurm {
    ghost is_clone = { λ named copy. copy ≡ named };

    fn clone(&self) -> Result<Self, AllocError> {
        Ok(NamedSlurm {
            name: self.name,
            file: self.file.clone()?,
        })
    }
}

/// Why files are no set. If both faults apply, the first one counts.
#[derive(Clone, Copy, Debug, PartialEq, Eq, Error)]
pub enum SlurmSetFault {
    #[error("there are more than 16 files")]
    TooMany,
    #[error("two files have one name")]
    Repeated,
}

/// Up to 16 SLURM files, whose names rise strictly, so that none is there twice.
#[derive(Debug, Drop)]
pub struct SlurmSet {
    files: Vec<NamedSlurm>,
}

impl Model for SlurmSet {
    ghost Value = { List NamedSlurm };

    ghost view = { λ set. set.files.items };

    ghost invariant = { λ set. AreFiles set.files.items };
}

impl Clone for SlurmSet {
    ghost is_clone = { λ set copy. copy ≡ set };

    fn clone(&self) -> Result<Self, AllocError> {
        Ok(SlurmSet {
            files: self.files.clone()?,
        })
    }
}

impl SlurmSet {
    /// The set of the files, which it puts in order. It takes no memory.
    pub fn make(mut files: Vec<NamedSlurm>) -> Result<SlurmSet, SlurmSetFault>
        ensures ok { IsOk result ↔ ((length files.items ≤ MOST_FILES) × AreNamedOnce files.items) }
        ensures same_files { IfOk result (IsPermutation files.items) }
        ensures rising { IfOk result RiseByName }
        ensures too_many { (result ≡ Err SlurmSetFault.TooMany)
            ↔ ¬ (length files.items ≤ MOST_FILES) }
        ensures repeated { (result ≡ Err SlurmSetFault.Repeated)
            ↔ ((length files.items ≤ MOST_FILES) × ¬ AreNamedOnce files.items) }
    {
        if files.len() > MOST_FILES {
            return Err(SlurmSetFault::TooMany);
        }
        if !sort_each_once(&mut files, |named| named.name) {
            return Err(SlurmSetFault::Repeated);
        }
        Ok(SlurmSet { files })
    }

    /// The files, rising by name.
    pub fn files(&self) -> &[NamedSlurm]
        ensures files { result.now ≡ self.now }
        ensures number { length self.now ≤ MOST_FILES }
        ensures rising { RiseByName self.now }
    {
        &self.files
    }
}
