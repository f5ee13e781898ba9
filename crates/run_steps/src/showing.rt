//! What a step of a call shows, by the scene that goes along.
use agent::Next;
use mg_model::events::Event;
use mg_names::identifiers::{CallNo, LineNo};
use run_account::RunFault;
use script_table::Script;
use std::alloc::Global;
use taken_steps::{Came, Scene, SceneFault, Shown};

/// Why a call isn't told where its scene has a fault.
fn fault_of(fault: SceneFault) -> RunFault {
    match fault {
        SceneFault::Disagree => RunFault::Disagree,
        SceneFault::NoMemory => RunFault::NoMemory,
    }
}

/// The scene of a call of these lines, as it opens.
pub(crate) fn open_scene<'s>(
    alloc: Global,
    script: &'s Script,
    call: CallNo,
    lines: &[LineNo],
) -> Result<Scene<'s>, RunFault> {
    match Scene::open(alloc, script, call, lines) {
        Ok(scene) => Ok(scene),
        Err(fault) => Err(fault_of(fault)),
    }
}

/// What a step shows that came to this; `next` is the call after it. `Disagree` where the scene went another way.
pub(crate) fn show(scene: &mut Scene<'_>, came: &Came, next: &Next<'_>) -> Result<Shown, RunFault> {
    let shown = match *came {
        Came::Happened(event) => scene.show_event(&event, next),
        Came::Idle(_) => scene.show_idle(),
        Came::Restarted | Came::EpochEnded | Came::OtherRestarted => scene.show_event(
            &Event::Restart,
            next,
        ),
    };
    match shown {
        Ok(shown) => Ok(shown),
        Err(fault) => Err(fault_of(fault)),
    }
}
