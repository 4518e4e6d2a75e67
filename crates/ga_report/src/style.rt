//! The style sheet of a page.
ghost use Rattle.std.specs.Prelude.{◌≡◌, ◌++◌, OnOk, string_bytes};
ghost use Rattle.ga_report.specs.Style.{CHIP, COLOURS, LAYOUT, LINES, ROWS, STYLE};

use crate::parts::push_parts;
use std::alloc::AllocError;

/// Adds the style sheet, with what stands between the title and the headline.
#[tactic(auto, unfolding(crate::specs::Style::STYLE))]
pub(crate) fn push_style(text: &mut String) -> Result<(), AllocError>
    ensures { OnOk result (string_bytes text.new ≡ string_bytes text.old ++ STYLE) }
{
    push_colours(text)?;
    push_layout(text)?;
    push_rows(text)?;
    push_lines(text)?;
    push_chip(text)
}

/// Adds the begin of the style sheet, with its colours.
#[tactic(auto, unfolding(crate::specs::Style::COLOURS))]
fn push_colours(text: &mut String) -> Result<(), AllocError>
    ensures { OnOk result (string_bytes text.new ≡ string_bytes text.old ++ COLOURS) }
{
    let parts = [
        "</title><style>\n",
        ":root{color-scheme:light dark;--page:#fdfdfb;--ink:#1b1b1a;\n",
        "--soft:#62625d;--rule:#d9d8d2;--work:#0068a8;--word:#e69f00;\n",
        "--reader:#c2649a;--boot:#b9b9b2;--spin:#8a8a84;--stop:#b3261e}\n",
        "@media(prefers-color-scheme:dark){:root{--page:#161716;--ink:#e9e8e3;\n",
        "--soft:#a3a29b;--rule:#373835;--work:#4ba6e0;--word:#eeb23c;\n",
        "--reader:#dd8cbb;--boot:#5c5d58;--spin:#8d8d86;--stop:#ff8f7f}}\n",
    ];
    push_parts(text, &parts)
}

/// Adds type and layout.
#[tactic(auto, unfolding(crate::specs::Style::LAYOUT))]
fn push_layout(text: &mut String) -> Result<(), AllocError>
    ensures { OnOk result (string_bytes text.new ≡ string_bytes text.old ++ LAYOUT) }
{
    let parts = [
        "body{margin:0;background:var(--page);color:var(--ink);\n",
        "font:15px/1.5 system-ui,sans-serif}\n",
        "main{max-width:1360px;margin:0 auto;padding:28px clamp(14px,3vw,44px) 60px}\n",
        "h1{font-size:clamp(20px,2.1vw,27px);line-height:1.28;max-width:54ch;margin:0 0 8px}\n",
        "h2{font-size:17px;margin:38px 0 6px}\n",
        "p{margin:0 0 8px;max-width:74ch;color:var(--soft)}\n",
        "pre{margin:0;overflow-x:auto;scrollbar-width:thin;background:\n",
        "linear-gradient(to right,var(--page) 40%,transparent) 0/32px 100% no-repeat local,\n",
        "linear-gradient(to left,var(--page) 40%,transparent) 100%/32px 100% no-repeat local,\n",
        "linear-gradient(to right,var(--rule),transparent) 0/16px 100% no-repeat,\n",
        "linear-gradient(to left,var(--rule),transparent) 100%/16px 100% no-repeat}\n",
        "pre,summary{font:12px/1.45 ui-monospace,Menlo,Consolas,monospace}\n",
        "summary{padding:4px 0;cursor:pointer}\n",
        "@media screen and (min-width:1280px){.beside{display:grid;gap:28px;\n",
        "grid-template-columns:minmax(0,670px) minmax(0,1fr)}\n",
        ".source{position:sticky;top:0;max-height:100vh}}\n",
    ];
    push_parts(text, &parts)
}

/// Adds the rows of the timeline, its scale and its key.
#[tactic(auto, unfolding(crate::specs::Style::ROWS))]
fn push_rows(text: &mut String) -> Result<(), AllocError>
    ensures { OnOk result (string_bytes text.new ≡ string_bytes text.old ++ ROWS) }
{
    let parts = [
        ".row,.scale,.key{font-size:13px;font-variant-numeric:tabular-nums}\n",
        ".row,.key{display:flex}\n",
        ".row{height:24px;line-height:24px}\n",
        ".row b{flex:0 0 3.6em;font-weight:400;white-space:nowrap}\n",
        ".row svg{flex:1;min-width:0;height:24px}\n",
        ".scale{position:relative;height:26px;margin-left:3.6em;\n",
        "border-top:1px solid var(--soft)}\n",
        ".scale span{position:absolute;top:3px;transform:translateX(-50%)}\n",
        ".scale span::before{content:'';position:absolute;left:50%;top:-3px;height:4px;\n",
        "border-left:1px solid var(--soft)}\n",
        ".scale span:first-child{transform:none}.scale span:first-child::before{left:0}\n",
        ".scale span:last-child{transform:translateX(-100%)}\n",
        ".scale span:last-child::before{left:auto;right:0}\n",
        ".scale::before{content:'turn';position:absolute;left:-3.6em;top:3px}\n",
        "@media(max-width:640px){.scale span:nth-child(even){display:none}}\n",
        ".key{flex-wrap:wrap;gap:4px 20px;padding:0;list-style:none}\n",
        ".key svg{width:26px;height:24px;margin-right:6px;vertical-align:middle}\n",
    ];
    push_parts(text, &parts)
}

/// Adds the lines of what a node does.
#[tactic(auto, unfolding(crate::specs::Style::LINES))]
fn push_lines(text: &mut String) -> Result<(), AllocError>
    ensures { OnOk result (string_bytes text.new ≡ string_bytes text.old ++ LINES) }
{
    let parts = [
        "path{fill:none;vector-effect:non-scaling-stroke}\n",
        ".works{stroke:var(--work);stroke-width:14}\n",
        ".word{stroke:var(--word);stroke-width:4}\n",
        ".reader{stroke:var(--reader);stroke-width:4}\n",
        ".spins{stroke:var(--spin);stroke-width:8;stroke-dasharray:2 3}\n",
        ".stopped{stroke:var(--stop);stroke-width:2}\n",
        ".boots{stroke:var(--boot);stroke-width:6}\n",
        ".idle{stroke:var(--rule);stroke-width:1}\n",
        ".over{position:relative}\n",
        ".transfers{position:absolute;top:0;left:3.6em;width:calc(100% - 3.6em);height:100%;\n",
        "font-size:13px;pointer-events:none}\n",
        ".transfer{stroke:var(--ink);stroke-width:1;pointer-events:stroke}\n",
        ".path{stroke:var(--ink);stroke-width:2}\n",
    ];
    push_parts(text, &parts)
}

/// Adds the picture of the chip, and the end of the style sheet.
#[tactic(auto, unfolding(crate::specs::Style::CHIP))]
fn push_chip(text: &mut String) -> Result<(), AllocError>
    ensures { OnOk result (string_bytes text.new ≡ string_bytes text.old ++ CHIP) }
{
    let parts = [
        ".chip{overflow-x:auto}\n",
        ".chip svg{display:block;width:100%;min-width:720px;max-width:1100px}\n",
        ".chip rect{fill:none;stroke:var(--rule)}.chip path{vector-effect:none}\n",
        ".chip .works{stroke-width:32}.chip .works+text{fill:var(--page)}\n",
        ".chip text{fill:var(--ink);font-size:13px;text-anchor:middle}\n",
        ".chip rect+text{fill:var(--soft)}.chip .arrow{stroke:var(--ink);stroke-width:2}\n",
        "@media(max-width:640px){.chip svg{min-width:0}.chip text{font-size:19px}}\n",
        "</style></head><body><main><h1>",
    ];
    push_parts(text, &parts)
}
