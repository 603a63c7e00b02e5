#![tactic(auto)]

ghost use Rattle.recovery.specs.Pattern.{two_templates};
ghost use Rattle.recovery.specs.Points.{Worked, Points};
ghost use Rattle.fixed_points.specs.Books.{BookPoints};
ghost use Rattle.fixed_points.specs.Frame.{FramePoints};

use layout::sheet::Sheet;
use recovery::guarantee::example_stands;

// The worked values in one table: of the frame layer, of books by position, and of recovery. Any sheet serves; the number is of
// no meaning.
pub fn fixed_points(sheet: &Sheet) -> u8
    ensures frame { FramePoints }
    ensures books { BookPoints }
    ensures run { Worked (two_templates sheet.now) }
    ensures window { Points (two_templates sheet.now) }
{
    example_stands(sheet)
}
