//! Events are played.
ghost use Rattle.std.specs.Prelude.{◌≡◌, true, [], OnOk, IfErr, Err};
ghost use Rattle.std.specs.List.{list_all};
ghost use Rattle.qs_calls.specs.Events.{fits};
ghost use Rattle.qs_calls.specs.declared.settings.Settings.{Settings};
ghost use Rattle.qs_world.specs.Plays.{PlayOf, HasPlayed};
ghost use Rattle.qs_world.specs.Copies.{HasPlayedCopies, PlayOfCopies};

use crate::copies::copy_event;
use crate::report::{PlayFault, Report};
use crate::world::World;
use qs_calls::Event;
use qs_conn::Settings;
use std::alloc::Global;

/// Plays events between two new endpoints, in order, and reports what came of it. Each event goes into the log as a copy.
///
/// What happened is a run of the two that agrees: what is read is a prefix of what was written, and all of it once a reader that hadn't
/// stopped got the end; a repeat spends no credit; a stream that counts as received was taken in whole; final sizes that are known are the
/// sender's; and neither endpoint closes.
///
/// Refused: `Setup` as [`crate::World::new`]; `NoSuchPacket` at the first event that delivers a packet which wasn't made; and `NoMemory` if
/// the log or a copy found none.
pub fn play(alloc: Global, a: Settings, b: Settings, events: &[Event]) -> Result<Report, PlayFault>
    requires { list_all fits events.now ≡ true }
    ensures { PlayOfCopies a b events.now result }
{
    let mut world = match World::new(alloc, a, b) {
        Ok(world) => world,
        Err(fault) => return Err(PlayFault::Setup(fault)),
    };
    match play_copies(alloc, &mut world, events) {
        Ok(()) => world.into_report(),
        Err(fault) => {
            world.discard();
            Err(fault)
        }
    }
}

/// Plays the events themselves, as [`play`] does copies of them: they go into the log as they are, so that nothing is copied.
///
/// Refused as there, but `NoMemory` comes if the log found none.
pub fn play_all(
    alloc: Global,
    a: Settings,
    b: Settings,
    events: Vec<Event>,
) -> Result<Report, PlayFault>
    requires { list_all fits events.items ≡ true }
    ensures { PlayOf a b events.items result }
{
    let mut world = match World::new(alloc, a, b) {
        Ok(world) => world,
        Err(fault) => return Err(PlayFault::Setup(fault)),
    };
    match play_each(&mut world, events) {
        Ok(()) => world.into_report(),
        Err(fault) => {
            world.discard();
            Err(fault)
        }
    }
}

fn play_copies(alloc: Global, world: &mut World, events: &[Event]) -> Result<(), PlayFault>
    requires { list_all fits events.now ≡ true }
    ensures ok { OnOk result (HasPlayedCopies events.now world.old world.new) }
    ensures err { IfErr result (λ fault. (a b : Settings) → HasPlayed a b [] world.old → PlayOfCopies a b events.now (Err fault)) }
{
    for event in events {
        let Ok(copy) = copy_event(alloc, event) else {
            return Err(PlayFault::NoMemory);
        };
        if let Err(fault) = world.happen(copy) {
            return Err(fault);
        }
    }
    Ok(())
}

pub(crate) fn play_each(world: &mut World, events: Vec<Event>) -> Result<(), PlayFault>
    requires { list_all fits events.items ≡ true }
    ensures ok { OnOk result ((a b : Settings) → HasPlayed a b [] world.old → HasPlayed a b events.items world.new) }
    ensures err { IfErr result (λ fault. (a b : Settings) → HasPlayed a b [] world.old → PlayOf a b events.items (Err fault)) }
{
    for event in events {
        if let Err(fault) = world.happen(event) {
            return Err(fault);
        }
    }
    Ok(())
}
