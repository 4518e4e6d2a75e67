ghost use Rattle.std.specs.Prelude.{◌≡◌};
ghost use Rattle.ga_dump.specs.Side.{side_text};

use ga_place::Side;

/// The name of a side in texts, in lower case.
pub fn side_name(side: Side) -> &'static str
    ensures { result.now ≡ side_text side }
{
    match side {
        Side::Right => "right",
        Side::Down => "down",
        Side::Left => "left",
        Side::Up => "up",
    }
}
