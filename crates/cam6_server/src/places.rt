//! Users' desks, and the places at which they stand while nobody sits at them.
ghost use Rattle.std.specs.Prelude.{◌≡◌, map, IfOk, Some};
ghost use Rattle.cam6_handoff.specs.Standing.{IsResting};
ghost use Rattle.cam6_server.specs.Places.{AreAtTheirPlaces, AreOwnDesks, GivesBack, IsFreeDeskOf};
ghost use Rattle.cam6_server.specs.Places.{Takes, with_user};

use cam6_commands::{Command, Reply};
use cam6_handoff::Desk;
use cam6_planes::NoMemory;
use cam6_session::{Ask, AtDesk, Waiter};
use cam6_wire::Seating;
use std::alloc::{AllocError, Global};
use std::marker::Model;

/// A place for each user, counted from 1. It has the user's desk, unless somebody sits at it.
#[derive(Drop)]
pub struct Places {
    desks: Vec<Option<Desk>>,
}

impl Model for Places {
    ghost use Rattle.std.specs.Prelude.{List, Option};
    ghost use Rattle.cam6_handoff.specs.Standing.{Stance};
    ghost use Rattle.cam6_server.specs.Places.{AreAtTheirPlaces};

    ghost Value = { List (Option Stance) };

    ghost view = { λ places. places.desks.items };

    // Each desk is at its user's place, and doesn't wait.
    ghost invariant = { λ places. AreAtTheirPlaces places.desks.items };
}

/// A user's desk, at which somebody sits, with whoever asks it. It can't be dropped: it is given back.
pub struct SeatedDesk<W> {
    user: u64,
    at: AtDesk<W>,
}

impl<W> Model for SeatedDesk<W> {
    ghost use Rattle.cam6_handoff.specs.Standing.{Stance, IsDeskOf};

    ghost Value = { Stance };

    ghost view = { λ seated. seated.at.desk };

    ghost invariant = { λ seated. IsDeskOf seated.user seated.at.desk };
}

impl<W: Waiter> Ask for SeatedDesk<W> {
    ghost use Rattle.cam6_handoff.specs.Standing.{IsDeskOf, IsResting};
    ghost use Rattle.cam6_session.specs.Desks.{machine_at};

    ghost stands_at = { λ desk. machine_at desk };

    ghost is_of = { λ u desk. IsDeskOf u desk };

    // A desk may be asked while it doesn't wait, and no longer waits when it has answered.
    ghost is_ready = { λ desk. IsResting desk };

    /// Does a command at the desk, which waits for no reply, and returns its reply. The waiter
    /// waits for the command's steps. If an allocation fails, the desk is as it was.
    fn ask(&mut self, command: Command) -> Result<Reply, NoMemory> {
        self.at.ask(command)
    }
}

impl Places {
    /// Makes a place for each desk, at which nobody sits. The desks wait for no reply, and go from
    /// user 1 on. Fails only if an allocation fails.
    pub fn new(alloc: Global, desks: Vec<Desk>) -> Result<Places, AllocError>
        requires { AreOwnDesks desks.items }
        ensures { IfOk result (λ places. places ≡ map Some desks.items) }
    {
        let mut places = Vec::with_capacity(alloc, desks.len())?;
        for desk in desks {
            places.push(Some(desk))?;
        }
        Ok(Places { desks: places })
    }

    /// Takes the desk of a user, counted from 1, from its place. `waiter` waits for the steps of
    /// its commands. Returns `Seating::Taken` as `Err` if somebody has the desk, or `NoUser` if
    /// there is no such user.
    pub fn take<W: Drop>(&mut self, user: u64, waiter: W) -> Result<SeatedDesk<W>, Seating>
        ensures { Takes self.old user result self.new }
    {
        match take_from(&mut self.desks, user) {
            Ok(desk) => Ok(SeatedDesk {
                user,
                at: AtDesk { waiter, desk },
            }),
            Err(seating) => Err(seating),
        }
    }

    /// Puts a desk, which waits for no reply, back at its user's place, so that it can be taken
    /// again.
    pub fn give_back<W: Drop>(&mut self, desk: SeatedDesk<W>)
        requires { IsResting desk }
        ensures { GivesBack self.old desk self.new }
    {
        let SeatedDesk {
            user,
            at: AtDesk { waiter: _, desk },
        } = desk;
        put_back(&mut self.desks, user, desk);
    }
}

/// Takes the desk at the place of a user, counted from 1. Returns `Taken` as `Err` if it isn't
/// there, or `NoUser` if there is no such user.
fn take_from(desks: &mut Vec<Option<Desk>>, user: u64) -> Result<Desk, Seating>
    requires { AreAtTheirPlaces desks.old.items }
    ensures own { AreAtTheirPlaces desks.new.items }
    ensures taken { Takes desks.old.items user result desks.new.items }
{
    let Some(index) = user.checked_sub(1) else {
        return Err(Seating::NoUser);
    };
    match desks.get_mut(index as usize) {
        Some(place) => place.take().ok_or(Seating::Taken),
        None => Err(Seating::NoUser),
    }
}

/// Puts the desk of a user, counted from 1, at its place. It waits for no reply. If there is no
/// such place, drops it.
fn put_back(desks: &mut Vec<Option<Desk>>, user: u64, desk: Desk)
    requires places { AreAtTheirPlaces desks.old.items }
    requires desk { IsFreeDeskOf user desk }
    ensures own { AreAtTheirPlaces desks.new.items }
    ensures back { desks.new.items ≡ with_user desks.old.items user (Some desk) }
{
    let Some(index) = user.checked_sub(1) else {
        return;
    };
    let index = index as usize;
    if index < desks.len() {
        desks[index].insert(desk);
    }
}
