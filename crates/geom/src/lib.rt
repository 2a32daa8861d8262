// Rectangles of four f32 edges, as tiny-skia-path's NonZeroRect and Size have them, and the test of a length of tree/geom.rs.
#![tactic(auto)]

ghost use Rattle.std.specs.Prelude.{◌≡◌};
ghost use Rattle.geom.specs.Geometry.{side, of_edges, of_size, width_of, height_of, size_of, placed, valid_length, view_box_length};

use num::is_finite;

// The largest f32.
const LARGEST: f64 = f32::MAX as f64;

// A rectangle by its edges. Its width and height are not stored: each is one subtraction.
#[derive(Clone, Copy)]
pub struct Rect {
    pub left: f32,
    pub top: f32,
    pub right: f32,
    pub bottom: f32,
}

// A width and a height.
#[derive(Clone, Copy)]
pub struct Size {
    pub width: f32,
    pub height: f32,
}

// Whether a side lies between the edges a and b. An infinite edge makes the difference an infinity, which is not below the largest f32, and a NaN is below
// nothing, so the two tests say too that both edges are finite.
#[tactic(auto, using(crate::proofs::Sides::side_not_below))]
pub fn is_side(a: f32, b: f32) -> bool
    ensures { result ≡ side a b }
{
    a < b && f64::from(b) - f64::from(a) < LARGEST
}

// Whether x is a length: above zero and finite.
#[tactic(auto, unfolding(crate::specs::Geometry::valid_length))]
pub fn is_valid_length(x: f32) -> bool
    ensures { result ≡ valid_length x }
{
    0.0 < x && is_finite(x)
}

// Whether x may be the width or the height of a view box: a length below the largest f32.
#[tactic(auto, unfolding(crate::specs::Geometry::valid_length, crate::specs::Geometry::view_box_length))]
pub fn is_view_box_length(x: f32) -> bool
    ensures { result ≡ view_box_length x }
{
    is_valid_length(x) && x < f32::MAX
}

impl Rect {
    #[tactic(auto, unfolding(crate::specs::Geometry::of_edges))]
    pub fn from_ltrb(left: f32, top: f32, right: f32, bottom: f32) -> Option<Rect>
        ensures { result ≡ of_edges left top right bottom }
    {
        let rect = Rect {
            left,
            top,
            right,
            bottom,
        };
        (is_side(left, right) && is_side(top, bottom)).then_some(rect)
    }

    // The far edges are sums, each rounded once.
    pub fn from_xywh(x: f32, y: f32, width: f32, height: f32) -> Option<Rect>
        ensures { result ≡ of_size x y width height }
    {
        Rect::from_ltrb(x, y, x + width, y + height)
    }

    pub fn x(self) -> f32
        ensures { result ≡ self.left }
    {
        self.left
    }

    pub fn y(self) -> f32
        ensures { result ≡ self.top }
    {
        self.top
    }

    // Not the width that the rectangle was made from: the edges are what is kept.
    pub fn width(self) -> f32
        ensures { result ≡ width_of self }
    {
        self.right - self.left
    }

    pub fn height(self) -> f32
        ensures { result ≡ height_of self }
    {
        self.bottom - self.top
    }

    // Both are above zero for a rectangle that exists (`width_above`, `height_above` of proofs/Rectangles.antt).
    pub fn size(self) -> Size
        ensures { result ≡ size_of self }
    {
        Size {
            width: self.width(),
            height: self.height(),
        }
    }

    // Places self in bbox. The crate panics where there is no such rectangle; here that is an answer.
    pub fn bbox_transform(self, bbox: Rect) -> Option<Rect>
        ensures { result ≡ placed self bbox }
    {
        let sx = bbox.width();
        let sy = bbox.height();
        let x = self.left * sx + bbox.left;
        let y = self.top * sy + bbox.top;
        let width = self.width() * sx;
        let height = self.height() * sy;
        Rect::from_xywh(x, y, width, height)
    }
}
