//! Examples of how the laws of schedules, of booting, of races and of waveforms are used.
#![tactic(auto)]

mod firmware;
mod orders;
mod pieces;
mod plans;
mod races;
mod rounds;
mod spinning;
mod stuck;
mod waveforms;

pub use firmware::{assemble_firmware, boot_firmware, run_firmware};
pub use orders::{one_side, two_orders, two_parts};
pub use pieces::{PlannedRun, in_pieces, leaf_is_loaded};
pub use plans::{after_run, plan_behind_plan, plan_beside_tries, two_plans};
pub use races::{settled_top, sum_chip, watched_tries};
pub use rounds::{ring_chip, round_of, spinning_tries, stays_at_rest};
pub use spinning::{spinning_chip, spinning_plans};
pub use stuck::tries_beside_stuck;
pub use waveforms::{plain_waveform, waveform_of_text};
