// The names of svgtree/names.rs as the numbers of a sheet, and which kind of value an attribute's id asks.
#![tactic(auto)]

ghost use Rattle.std.specs.Prelude.{◌≡◌};
ghost use Rattle.names.specs.Kinds.{on_child, on_grandchild, kind_in, kind_at, kind_allowed, tag_ok};

use sheet_fields::kind::ValueKind;

pub mod aid;
pub mod eid;

// The kind of value that an id asks on a filter's child; none where filter.rs reads no such attribute there.
#[tactic(auto, unfolding(crate::specs::Kinds::kind_in, crate::specs::Kinds::among, crate::specs::Kinds::on_child))]
fn kind_on_child(id: u16) -> Option<ValueKind>
    ensures { result ≡ kind_in on_child id }
{
    match id {
        aid::COLOR_INTERPOLATION_FILTERS
        | aid::RESULT
        | aid::IN
        | aid::IN2
        | aid::MODE
        | aid::TYPE
        | aid::OPERATOR
        | aid::EDGE_MODE
        | aid::PRESERVE_ALPHA
        | aid::X_CHANNEL_SELECTOR
        | aid::Y_CHANNEL_SELECTOR
        | aid::STITCH_TILES => Some(ValueKind::Text),
        aid::K1..=aid::K4
        | aid::DIVISOR
        | aid::BIAS
        | aid::TARGET_X
        | aid::TARGET_Y
        | aid::SCALE
        | aid::FLOOD_OPACITY
        | aid::DX
        | aid::DY
        | aid::SURFACE_SCALE
        | aid::DIFFUSE_CONSTANT
        | aid::SPECULAR_CONSTANT
        | aid::SPECULAR_EXPONENT
        | aid::NUM_OCTAVES
        | aid::SEED => Some(ValueKind::Number),
        aid::VALUES | aid::KERNEL_MATRIX | aid::RADIUS | aid::BASE_FREQUENCY => Some(
            ValueKind::Numbers,
        ),
        aid::X | aid::Y | aid::WIDTH | aid::HEIGHT => Some(ValueKind::Length),
        aid::FLOOD_COLOR | aid::LIGHTING_COLOR | aid::COLOR => Some(ValueKind::Color),
        aid::STD_DEVIATION | aid::ORDER => Some(ValueKind::Tries),
        _ => None,
    }
}

// The same on a child of such a child.
#[tactic(auto, unfolding(crate::specs::Kinds::kind_in, crate::specs::Kinds::among, crate::specs::Kinds::on_grandchild))]
fn kind_on_grandchild(id: u16) -> Option<ValueKind>
    ensures { result ≡ kind_in on_grandchild id }
{
    match id {
        aid::IN | aid::TYPE => Some(ValueKind::Text),
        aid::SLOPE
        | aid::INTERCEPT
        | aid::AMPLITUDE
        | aid::EXPONENT
        | aid::OFFSET
        | aid::AZIMUTH
        | aid::ELEVATION
        | aid::X
        | aid::Y
        | aid::Z
        | aid::POINTS_AT_X
        | aid::POINTS_AT_Y
        | aid::POINTS_AT_Z
        | aid::SPECULAR_EXPONENT
        | aid::LIMITING_CONE_ANGLE => Some(ValueKind::Number),
        aid::TABLE_VALUES => Some(ValueKind::Numbers),
        _ => None,
    }
}

// The same at a depth. Every depth but 0 is taken for 1.
#[tactic(auto, unfolding(crate::specs::Kinds::kind_at))]
pub fn kind_at(depth: u8, id: u16) -> Option<ValueKind>
    ensures { result ≡ kind_at depth id }
{
    if depth == 0 {
        return kind_on_child(id);
    }
    kind_on_grandchild(id)
}

// Whether a value of a kind may stand under an id at a depth. The kind is the byte as it stands: a sheet may have any, and one that stands for no kind is allowed nowhere.
#[tactic(auto, unfolding(crate::specs::Kinds::kind_allowed))]
pub fn kind_allowed(depth: u8, id: u16, kind: u8) -> bool
    ensures { result ≡ kind_allowed depth id kind }
{
    let Some(asked) = kind_at(depth, id) else {
        return false;
    };
    match ValueKind::try_from(kind) {
        Ok(kind) if kind == asked => true,
        Ok(ValueKind::Typed) => asked == ValueKind::Numbers,
        Ok(ValueKind::Unreadable) => asked != ValueKind::Text,
        Ok(ValueKind::Text) => id == aid::LIGHTING_COLOR,
        _ => false,
    }
}

// Whether a node may have this tag byte.
pub fn tag_ok(tag: u8) -> bool
    ensures { result ≡ tag_ok tag }
{
    tag <= eid::COUNT
}
