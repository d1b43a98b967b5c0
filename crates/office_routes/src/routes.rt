ghost use Rattle.std.specs.Prelude.{◌≡◌, IfOk, OnOk};
ghost use Rattle.matchit.specs.Route.{parse_route};
ghost use Rattle.office_routes.specs.Rows.{IsNew, office_rows, with_route};

use crate::spot::Spot;
use matchit::{InsertError, Router};
use std::alloc::{AllocError, Global};
use std::marker::Model;

/// The routes of the office. They take memory as they are made; to find a path takes none.
#[derive(Drop)]
pub struct Routes {
    router: Router<Spot>,
}

impl Model for Routes {
    ghost use Rattle.std.specs.Prelude.{◌≡◌};
    ghost use Rattle.office_routes.specs.Rows.{office_rows};

    ghost Value = { Unit {0} };

    ghost view = { λ _. tt };

    ghost invariant = { λ routes. routes.router ≡ office_rows };
}

impl Routes {
    ghost use Rattle.std.specs.Prelude.{◌≡◌, option_map};
    ghost use Rattle.office_routes.specs.Spots.{find};

    /// The routes. The error is want of memory.
    pub fn new(alloc: Global) -> Result<Routes, AllocError> {
        let router = router_of(alloc)?;
        Ok(Routes { router })
    }

    /// What is found at a path, and the texts of its two parameters: empty where it has none, or
    /// one alone.
    pub fn find<'p>(&self, path: &'p str) -> Option<(Spot, &'p str, &'p str)>
        ensures { option_map (λ found. (found.0, found.1.now, found.2.now)) result ≡ find path.now }
    {
        let Ok(found) = self.router.at(path) else {
            return None;
        };
        let spot = *found.value;
        let mut texts = found.params.iter();
        let Some((_, text)) = texts.next() else {
            return Some((spot, "", ""));
        };
        let Some((_, more)) = texts.next() else {
            return Some((spot, text, ""));
        };
        Some((spot, text, more))
    }
}

// The nine routes, each with what is found there.
fn router_of(alloc: Global) -> Result<Router<Spot>, AllocError>
    ensures { IfOk result (λ router. router ≡ office_rows) }
{
    let mut router = Router::new(alloc);
    add(&mut router, "/acts", Spot::Acts)?;
    add(&mut router, "/acts/{number}", Spot::Rows)?;
    add(&mut router, "/summary", Spot::Summary)?;
    add(&mut router, "/batches/{name}", Spot::Sheet)?;
    add(&mut router, "/batches/{name}/sample", Spot::Sample)?;
    add(&mut router, "/batches/{name}/packs/{number}", Spot::Packs)?;
    add(&mut router, "/packs/{number}", Spot::Pack)?;
    add(&mut router, "/lanes/{number}", Spot::Lane)?;
    add(&mut router, "/rows/{number}", Spot::Shipment)?;
    Ok(router)
}

// Adds a route that can be read and is new: only memory can be missing.
fn add(router: &mut Router<Spot>, route: &str, spot: Spot) -> Result<(), AllocError>
    requires { IsNew (parse_route route.now) router.old }
    ensures { OnOk result (router.new ≡ with_route (parse_route route.now) spot router.old) }
{
    match router.insert(route, spot) {
        Ok(()) => Ok(()),
        Err(InsertError::OutOfMemory) => Err(AllocError),
        Err(_) => unreachable!(),
    }
}
