//! Scripts of random events.
ghost use Rattle.std.specs.Prelude.{◌≡◌, true, map, IfOk, IfErr, OnOk};
ghost use Rattle.std.specs.List.{list_all};
ghost use Rattle.qs_calls.specs.Events.{fits};
ghost use Rattle.qs_world.specs.Randoms.{IsRandomScript, DrawnStep, seeded};
ghost use Rattle.qs_world.specs.declared.report.PlayFault.TheVariants.{NoMemory};

use crate::draws::{draw_act, draw_side};
use crate::report::PlayFault;
use crate::world::World;
use qs_calls::{Answer, Event};
use qs_script::standard_settings;
use rand_pcg::Lcg64Xsh32;
use std::alloc::Global;

/// So many random events between two endpoints of the standard settings. Each is drawn from the words of a generator that the seed
/// determines, and from how many packets its endpoint has made by then.
///
/// Refused: `NoMemory`.
pub fn random_script(alloc: Global, seed: u64, n: usize) -> Result<Vec<Event>, PlayFault>
    ensures drawn { IfOk result (λ events. IsRandomScript (seeded seed) n events.items) }
    ensures fit { IfOk result (λ events. list_all fits events.items ≡ true) }
    ensures err { IfErr result (λ fault. fault ≡ NoMemory) }
{
    let settings = standard_settings();
    let mut world = match World::new(alloc, settings, settings) {
        Ok(world) => world,
        Err(_) => unreachable!(),
    };
    let mut words = Lcg64Xsh32::new(seed, 0);
    for _ in 0..n {
        if let Err(fault) = draw_step(alloc, &mut world, &mut words) {
            world.discard();
            return Err(fault);
        }
    }
    events_of(alloc, world.into_log())
}

/// The event is played as it is drawn, since the next draw depends on the packets that were made.
fn draw_step(alloc: Global, world: &mut World, words: &mut Lcg64Xsh32) -> Result<(), PlayFault>
    ensures step { OnOk result (DrawnStep world.old words.old world.new words.new) }
    ensures err { IfErr result (λ fault. fault ≡ NoMemory) }
{
    let end = draw_side(words);
    let made = world.made(end);
    match draw_act(alloc, words, made) {
        Ok(act) => {
            world.happen(Event { end, act })?;
            Ok(())
        }
        Err(_) => Err(PlayFault::NoMemory),
    }
}

fn events_of(alloc: Global, log: Vec<(Event, Answer)>) -> Result<Vec<Event>, PlayFault>
    ensures events { IfOk result (λ events. events.items ≡ map (λ x. x.0) log.items) }
    ensures err { IfErr result (λ fault. fault ≡ NoMemory) }
{
    match log.into_iter().map(|(event, _)| event).collect(alloc) {
        Ok(events) => Ok(events),
        Err(_) => Err(PlayFault::NoMemory),
    }
}
