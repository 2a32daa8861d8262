// Lengths in user units: units.rs, the lengths of converter.rs, and `resolve_number` and `convert_units` of paint_server.rs.
#![tactic(auto)]

ghost use Rattle.std.specs.Prelude.{◌≡◌};
ghost use Rattle.units.specs.Lengths.{percent_base, percent_of, convert_units, convert_length, converted, resolve_number};

use geom::Size;
use names::aid;
use svgtree::{Length, LengthUnit, Units};

// What a length is converted with, beside the font size: the part of converter.rs `State` in use.
#[derive(Clone, Copy)]
pub struct State {
    pub view_box: Size,
    pub dpi: f32,
}

// What the lengths of an element are converted with: the units that they are in, and the font size of the element.
#[derive(Clone, Copy)]
pub struct LengthContext {
    pub units: Units,
    pub state: State,
    pub font_size: f32,
}

// A length to a number.

// What a percentage under an attribute is of.
fn percent_base(aid: u16, view_box: Size) -> f32
    ensures { result ≡ percent_base aid view_box }
{
    match aid {
        aid::Y | aid::HEIGHT => view_box.height,
        _ => view_box.width,
    }
}

fn convert_percent(n: f32, units: Units, base: f32) -> f32
    ensures { result ≡ percent_of units n base }
{
    match units {
        Units::ObjectBoundingBox => n / 100.0,
        Units::UserSpaceOnUse => base * n / 100.0,
    }
}

impl LengthContext {
    // Every length goes through this function.
    #[tactic(auto, unfolding(crate::specs::Lengths::convert_length))]
    pub fn convert_length(self, length: Length, aid: u16) -> f32
        ensures { result ≡ convert_length length aid self.units self.state self.font_size }
    {
        let Length { number: n, unit } = length;
        let State { view_box, dpi } = self.state;
        match unit {
            LengthUnit::None | LengthUnit::Px => n,
            LengthUnit::Em => n * self.font_size,
            LengthUnit::Ex => n * self.font_size / 2.0,
            LengthUnit::In => n * dpi,
            LengthUnit::Cm => n * dpi / 2.54,
            LengthUnit::Mm => n * dpi / 25.4,
            LengthUnit::Pt => n * dpi / 72.0,
            LengthUnit::Pc => n * dpi / 6.0,
            LengthUnit::Percent => convert_percent(n, self.units, percent_base(aid, view_box)),
        }
    }

    // A length of a node, where it is given.
    pub fn try_convert_length(self, found: Option<Length>, aid: u16) -> Option<f32>
        ensures { result ≡ converted found aid self.units self.state self.font_size }
    {
        found.map(|length| self.convert_length(length, aid))
    }

    // An attribute of the filter element, with its default.
    pub fn resolve_number(self, given: Option<Length>, aid: u16, def: Length) -> f32
        ensures { result ≡ resolve_number given aid self.units self.state self.font_size def }
    {
        self.convert_length(given.unwrap_or(def), aid)
    }
}

// The units that an attribute of the filter element names, or its default.
pub fn convert_units(given: Option<Units>, def: Units) -> Units
    ensures { result ≡ convert_units given def }
{
    given.unwrap_or(def)
}
