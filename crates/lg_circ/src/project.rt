//! Projects as the drawing tool keeps them: libraries, sheets, components and wires.

ghost use Rattle.std.specs.Prelude.{◌≡◌, ◌&&◌, IsTrue};
ghost use Rattle.lg_circ.specs.Bounds.{is_on_sheet, is_limit};

use lg_attrs::Attrs;
use lg_text::Text;
use sqlite_items::Items;

/// How far from the origin a component may stand and a wire may reach, along x and along y.
pub const FARTHEST: u32 = 1_000_000;

/// How many busy instants a project may allow a settling at most.
pub const GREATEST_LIMIT: u32 = 1_000_000;

/// How many busy instants a settling may have where the project sets no limit.
pub const USUAL_LIMIT: u32 = 1000;

/// A point of a sheet, in the drawing's units; `y` grows downwards.
#[derive(Clone, Copy, Debug, PartialEq, Eq)]
pub struct Point {
    pub x: i32,
    pub y: i32,
}

impl Point {
    /// Whether no coordinate is further than `FARTHEST` from the origin.
    pub fn is_on_sheet(self) -> bool
        ensures { result ≡ is_on_sheet self }
    {
        self.x.unsigned_abs() <= FARTHEST && self.y.unsigned_abs() <= FARTHEST
    }
}

/// A wire from one point of a sheet to another; neither is further than `FARTHEST` from the origin.
#[derive(Clone, Copy, Debug, PartialEq, Eq)]
pub struct Wire {
    pub from: Point,
    pub to: Point,
    pub ghost on_sheet: { IsTrue (is_on_sheet from && is_on_sheet to) },
}

impl Wire {
    ghost use Rattle.lg_circ.specs.Straight.{is_straight};

    /// Whether it is level or upright.
    pub fn is_straight(self) -> bool
        ensures { result ≡ is_straight self }
    {
        self.from.x == self.to.x || self.from.y == self.to.y
    }
}

/// A component on a sheet, which stands no further than `FARTHEST` from the origin.
#[derive(Debug, Drop)]
pub struct Comp {
    /// The number of its library in the project; none for a use of a sheet.
    pub lib: Option<Text>,
    /// The name of its kind, or of the sheet that it uses.
    pub name: Text,
    /// Where it stands.
    pub loc: Point,
    pub attrs: Attrs,
    pub ghost on_sheet: { IsTrue (is_on_sheet loc) },
}

/// One circuit of a project, with its components and wires in file order.
#[derive(Debug, Drop)]
pub struct Sheet {
    pub name: Text,
    pub comps: Items<Comp>,
    pub wires: Items<Wire>,
}

/// What a project's text says.
#[derive(Debug, Drop)]
pub struct Project {
    /// The name and the description of each library. The first of a name counts.
    pub libs: Items<(Text, Text)>,
    /// The circuit that the project opens with, where it names one.
    pub main: Option<Text>,
    /// Whether a gate with an unattached input gives an error.
    pub strict: bool,
    /// How many busy instants a settling may have: 1 to `GREATEST_LIMIT`.
    pub limit: u32,
    pub sheets: Items<Sheet>,
    pub ghost limit_in_range: { IsTrue (is_limit limit) },
}
