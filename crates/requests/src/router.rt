//! The path of a target.
ghost use Rattle.std.specs.Prelude.{◌≡◌, IfOk, OnOk};
ghost use Rattle.requests.specs.Paths.{has_query, path_at, path_of, path_routes, with_path};

use crate::path::{PATHS, Path};
use matchit::Router;
use std::alloc::{AllocError, Global};
use std::marker::Model;
use std::str::from_utf8;

/// The paths of the table of requests, as they are looked up.
#[derive(Drop)]
pub struct Routes {
    router: Router<Path>,
}

impl Model for Routes {
    ghost use Rattle.std.specs.Prelude.{◌≡◌};
    ghost use Rattle.requests.specs.Paths.{Router, path_routes};

    ghost Value = { Router };

    ghost view = { λ kept. kept.router };

    ghost invariant = { λ kept. kept.router ≡ path_routes };
}

impl Routes {
    /// The routes of all paths. Only an allocation can fail.
    #[tactic(auto, unfolding(crate::specs::Paths::path_routes))]
    pub fn new(alloc: Global) -> Result<Routes, AllocError>
        ensures { IfOk result (λ made. made ≡ path_routes) }
    {
        let mut router = Router::new(alloc);
        for (template, path) in PATHS {
            add(&mut router, template, *path)?;
        }
        Ok(Routes { router })
    }

    /// The path that a target has.
    pub(crate) fn path_of(&self, target: &[u8]) -> Option<Path>
        ensures { result ≡ path_of target.now }
    {
        if has_query(target) {
            return None;
        }
        let Ok(text) = from_utf8(target) else {
            return None;
        };
        self.path_at(text)
    }

    /// The path that a text is.
    fn path_at(&self, text: &str) -> Option<Path>
        ensures { result ≡ path_at text.now }
    {
        match self.router.at(text) {
            Ok(found) => Some(*found.value),
            Err(_) => None,
        }
    }
}

/// Whether a target has a query or a fragment.
fn has_query(target: &[u8]) -> bool
    ensures { result ≡ has_query target.now }
{
    target.iter().any(|byte| *byte == b'?' || *byte == b'#')
}

/// Adds a path. No two of them conflict, so only an allocation can fail.
fn add(router: &mut Router<Path>, template: &str, path: Path) -> Result<(), AllocError>
    ensures { OnOk result (router.new ≡ with_path router.old (template.now, path)) }
{
    match router.insert(template, path) {
        Ok(()) => Ok(()),
        Err(_) => Err(AllocError),
    }
}
