//! A profile as text.
ghost use Rattle.std.specs.Prelude.{◌≡◌, ◌++◌, IfOk, OnOk, string_bytes};
ghost use Rattle.ga_waits.specs.Label.{images_in};
ghost use Rattle.ga_profile.specs.Text.{profile_text, window_text};

use crate::alike::path_groups;
use crate::bottleneck::push_bottleneck;
use crate::path_table::push_groups;
use crate::profile::Profile;
use crate::stacks::push_stacks;
use crate::table::{push_head, push_legend, push_rows};
use crate::window::Window;
use ga_asm::Images;
use std::alloc::{AllocError, Global};
use std::fmt::Write;

/// A profile as text: its window; a line for each node that began, with the shares of the turns in
/// which it worked and waited, a bar of them, its share of the path, and how many words it took and
/// posted; the bottleneck; the words of memory with the most turns on the path, those of several
/// nodes that read alike together; and the nodes with the fullest stacks. An address has the label
/// of its image that is at it or the last before it, if there are images. Each line ends with LF.
/// Fails only when out of memory.
/// (The text is this project's own: profile.)
#[tactic(auto, unfolding(crate::specs::Text::profile_text))]
pub fn profile_text(
    alloc: Global,
    profile: &Profile,
    images: Option<&Images>,
) -> Result<String, AllocError>
    ensures { IfOk result (λ text. string_bytes text
        ≡ profile_text (images_in images.entry) profile.now.window profile.now.nodes.items
        profile.now.passes.items profile.now.path.items profile.now.lines.items
        profile.now.shorter profile.now.depths.items profile.now.chip) }
{
    let turns = profile.window.length();
    let nodes = profile.nodes.as_slice();
    let passes = profile.passes.as_slice();
    let path = profile.path.as_slice();
    let mut text = String::new(alloc);
    push_window(&mut text, profile.window)?;
    push_head(&mut text)?;
    push_rows(&mut text, alloc, nodes, passes, path, turns)?;
    push_legend(&mut text)?;
    push_bottleneck(&mut text, alloc, profile)?;
    let groups = path_groups(alloc, images, path, profile.lines.as_slice())?;
    push_groups(&mut text, alloc, images, groups.as_slice(), turns)?;
    push_stacks(&mut text, alloc, images, nodes, profile.depths.as_slice())?;
    Ok(text)
}

/// Adds how long a window is, and where it begins.
fn push_window(text: &mut String, window: Window) -> Result<(), AllocError>
    ensures { OnOk result (string_bytes text.new
        ≡ string_bytes text.old ++ window_text window) }
{
    let turns = window.length();
    write!(text, "{turns} turns")?;
    let first = window.first;
    writeln!(text, " from turn {first} on")?;
    Ok(())
}
