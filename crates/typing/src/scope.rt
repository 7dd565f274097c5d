// What the names of a body stand for.
use plc_types::{DataType, Range, Value};
use source_tree::{Name, Path};

/// Where a value is: in a cell, by its place, or fixed, as that of a constant or of a name of an enumeration.
#[derive(Clone, Copy)]
pub enum Place {
    Cell(usize),
    Value(Value),
}

/// What a path or a value stands for: where its value is, its type, the values that it may have, whether its declaration
/// breaks no rule, whether it may be assigned, and whether it may control a FOR.
#[derive(Clone, Copy)]
pub struct Meaning {
    pub place: Place,
    pub kind: DataType,
    pub range: Range,
    pub whole: bool,
    pub assignable: bool,
    pub control: bool,
}

/// What goes into a FUNCTION, or comes out of it: its type, and whether its declaration breaks no rule.
#[derive(Clone, Copy)]
pub struct Port {
    pub kind: DataType,
    pub whole: bool,
}

/// A FUNCTION that may be called: its numbers among the POUs of its file and among those that may be called, what it answers,
/// and how many inputs it has.
#[derive(Clone, Copy)]
pub struct Signature {
    pub function: usize,
    pub number: usize,
    pub result: Port,
    pub count: usize,
}

/// An instance of a FUNCTION_BLOCK: the number of the block among the POUs that may be called, and the place where its cells
/// begin.
#[derive(Clone, Copy)]
pub struct Instance {
    pub block: usize,
    pub offset: usize,
}

/// A scope says what names stand for, where they stand for something.
pub trait Scope {
    ghost use Rattle.std.specs.Prelude.{◌≡◌, Option};
    ghost use Rattle.source_tree.specs.SyntaxView.{name_view, path_view};
    ghost use Rattle.typing.specs.Typing.{Scope, by_path, by_value};

    ghost means: { Self → Scope };

    /// What a path stands for.
    fn meaning(&self, path: &Path) -> Option<Meaning>
        ensures { result ≡ (means self.now).means (by_path (path_view path.now)) };

    /// What the value of an enumeration stands for, by its name.
    fn value(&self, name: &Name) -> Option<Meaning>
        ensures { result ≡ (means self.now).means (by_value (name_view name.now)) };

    /// The FUNCTION of a name.
    fn signature(&self, name: &Name) -> Option<Signature>
        ensures { result ≡ (means self.now).signature (name_view name.now).text };

    /// The input at a place among those of a FUNCTION, by the number of its POU.
    fn port(&self, function: usize, place: usize) -> Option<Port>
        ensures { result ≡ (means self.now).port function place };

    /// The place of the input of a name among those of a FUNCTION, by the number of its POU.
    fn input(&self, function: usize, name: &Name) -> Option<usize>
        ensures { result ≡ (means self.now).input function (name_view name.now).text };

    /// The instance of a name.
    fn instance(&self, name: &Name) -> Option<Instance>
        ensures { result ≡ (means self.now).instance (name_view name.now).text };
}
