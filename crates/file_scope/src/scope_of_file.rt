// What the uses of types, of their values and of POUs break in a file's scope.
ghost use Rattle.std.specs.Prelude.{◌≡◌, [], OnOk, IfOk, map, option_map, option_and_then, unwrap_or};
ghost use Rattle.call_order.specs.Uses.{graph_of, HasCircles};
ghost use Rattle.rules.specs.Rules.{earlier, first_in};
ghost use Rattle.source_tree.specs.SyntaxView.{name_view, tree_view, type_view, specification_view, pou_type_view, file_view};
ghost use Rattle.naming.specs.Broken.{names_twice, is_broken_function, is_broken_name, in_scope, in_type_name, in_value_name, in_enumeration, in_enumerator, in_bound, in_declared_type, in_specification, in_result, is_callable, callee_of};
ghost use Rattle.naming.specs.DeclarationUses.{declaration_uses, is_circular_use};
ghost use Rattle.naming.specs.Ends.{Marks};
ghost use Rattle.naming.specs.FileScope.{types_of, pous_of, names_of, standing, pou_type_at, pou_number, block_number, number_if};
ghost use Rattle.file_scope.specs.FileView.{file_names_view};
ghost use Rattle.rules.specs.Judgements.{and};
ghost use Rattle.rules.specs.Outcomes.{outcome_of};
ghost use Rattle.naming.specs.PouShapes.{pou_shape, ArePouShapes};
ghost use Rattle.naming.specs.Scopes.{is_whole_type, block_of_type};
ghost use Rattle.naming.specs.ScopeView.{types_view, pous_view};
ghost use Rattle.naming.specs.Types.{specification_at, is_whole_end, is_whole_type_name};

use crate::declaration_uses::declaration_circles;
use crate::file_names::file_names;
use crate::file_types::{FileTypes, file_types};
use crate::names::Declarations;
use crate::refusals::{misused, unknown};
use call_order::uses_in_circle;
use naming::{Callee, PouShape, Shape, Standing, is_library, is_type, is_value, pou_number};
use rules::{Outcome, Refusal};
use source_tree::{Bounds, Expr, Name, Pou, PouType, SourceFile, Specification, TypeName};
use std::alloc::{AllocError, Global};
use use_numbers::UseNumbers;

/// The types of a file, which of them break no rule and are no other types by name, what its POUs are, and for each declaration those
/// that it uses in a circle.
#[derive(Drop)]
pub struct FileScope<'a> {
    pub types: FileTypes<'a>,
    wholes: Vec<bool>,
    pous: Vec<PouShape>,
    circles: Vec<Vec<usize>>,
    ghost marked: { Marks wholes.items (λ t. is_whole_end (file_view types.names.file.now) t (specification_at (file_view types.names.file.now) t)) },
    ghost shaped: { ArePouShapes (file_view types.names.file.now) pous.items },
    ghost circular: { HasCircles (declaration_uses (file_view types.names.file.now)) (graph_of circles.items) },
}

// The types of a file, and which of them break no rule and are no other types by name.
#[derive(Clone, Copy)]
struct Wholes<'a> {
    types: &'a FileTypes<'a>,
    wholes: &'a [bool],
    ghost marked: { Marks wholes.now (λ t. is_whole_end (file_view types.now.names.file.now) t (specification_at (file_view types.now.names.file.now) t)) },
}

impl Wholes<'_> {
    // Whether a type breaks no rule and is no other type by name.
    fn is_whole_end(&self, number: usize) -> bool
        ensures { let f = file_view self.now.types.now.names.file.now in result ≡ is_whole_end f number (specification_at f number) }
    {
        self.wholes.get(number).copied().unwrap_or(false)
    }

    // Whether a type by name breaks no rule.
    fn is_whole_type_name(&self, name: &Name) -> bool
        ensures { result ≡ is_whole_type_name (file_view self.now.types.now.names.file.now) (name_view name.now) }
    {
        match self.types.named_end(name) {
            Some(number) => self.is_whole_end(number),
            None => false,
        }
    }

    // Whether a type breaks no rule; the bounds of a subrange are left aside.
    fn is_whole_type(&self, kind: &TypeName) -> bool
        ensures { result ≡ is_whole_type (file_view self.now.types.now.names.file.now) (type_view kind.now) }
    {
        match kind {
            TypeName::Named(name) => self.is_whole_type_name(name),
            _ => true,
        }
    }

    // What a POU is.
    fn pou_shape(&self, pou_type: &PouType) -> PouShape
        ensures { result ≡ pou_shape (file_view self.now.types.now.names.file.now) (pou_type_view pou_type.now) }
    {
        match pou_type {
            PouType::Function(kind) => PouShape::Function(self.is_whole_type(kind)),
            PouType::FunctionBlock => PouShape::Block,
            PouType::Program => PouShape::Program,
        }
    }

    // What each POU is.
    fn pou_shapes(&self, alloc: Global, pous: &[&Pou]) -> Result<Vec<PouShape>, AllocError>
        ensures { let f = file_view self.now.types.now.names.file.now in IfOk result (λ shapes. shapes.items ≡ map (λ p. pou_shape f (pou_type_view p.now.pou_type)) pous.now) }
    {
        pous.iter()
            .map(|pou| self.pou_shape(&pou.pou_type))
            .collect(alloc)
    }
}

impl FileScope<'_> {
    // Which types break no rule and are no other types by name.
    fn all_wholes(&self) -> Wholes<'_>
        ensures { file_view result.types.now.names.file.now ≡ file_view self.now.types.names.file.now }
    {
        Wholes {
            types: &self.types,
            wholes: &self.wholes,
        }
    }

    // Whether a type breaks no rule and is no other type by name.
    fn is_whole_end(&self, number: usize) -> bool
        ensures { result ≡ is_whole_end (file_view self.now.types.names.file.now) number (specification_at (file_view self.now.types.names.file.now) number) }
    {
        self.all_wholes().is_whole_end(number)
    }

    /// Whether a type by name breaks no rule.
    pub fn is_whole_type_name(&self, name: &Name) -> bool
        ensures { result ≡ is_whole_type_name (file_view self.now.types.names.file.now) (name_view name.now) }
    {
        self.all_wholes().is_whole_type_name(name)
    }

    /// Whether a type breaks no rule; the bounds of a subrange are left aside.
    pub fn is_whole_type(&self, kind: &TypeName) -> bool
        ensures { result ≡ is_whole_type (file_view self.now.types.names.file.now) (type_view kind.now) }
    {
        self.all_wholes().is_whole_type(kind)
    }

    // What the POU of a number is.
    fn pou_shape_at(&self, number: usize) -> Option<PouShape>
        ensures { result ≡ option_map (pou_shape (file_view self.now.types.names.file.now)) (pou_type_at (file_view self.now.types.names.file.now) number) }
    {
        self.pous.get(number).copied()
    }

    // Whether the declaration of the FUNCTION of a number breaks a rule by the type of its result.
    fn is_broken_function(&self, number: usize) -> bool
        ensures { result ≡ is_broken_function (file_view self.now.types.names.file.now) number }
    {
        matches!(self.pou_shape_at(number), Some(PouShape::Function(false)))
    }

    // Whether a name is that of a type or a FUNCTION whose declaration breaks a rule.
    fn is_broken_name(&self, name: &Name) -> bool
        ensures { let f = file_view self.now.types.names.file.now in result ≡ is_broken_name f (standing f (name_view name.now).text) }
    {
        match self.types.names.standing(name) {
            Some(Standing::Type(number)) => !self.is_whole_end(self.types.end_of(number)),
            Some(Standing::Pou(number)) => self.is_broken_function(number),
            _ => false,
        }
    }

    /// A name that is looked up in the file's scope, where none is that fits.
    pub fn use_at(&self, name: &Name) -> Outcome
        ensures { result ≡ outcome_of (in_scope (file_view self.now.types.names.file.now) (name_view name.now)) }
    {
        if self.is_broken_name(name) {
            return Outcome::suppressed();
        }
        self.types.names.use_at(name)
    }

    /// A type by name.
    pub fn type_name(&self, name: &Name) -> Outcome
        ensures { result ≡ outcome_of (in_type_name (file_view self.now.types.names.file.now) (name_view name.now)) }
    {
        if is_type(self.types.names.standing(name)) {
            return Outcome::whole_if(self.is_whole_type_name(name));
        }
        self.use_at(name)
    }

    /// The name of a value.
    pub fn value_name(&self, name: &Name) -> Outcome
        ensures { result ≡ outcome_of (in_value_name (file_view self.now.types.names.file.now) (name_view name.now)) }
    {
        if is_value(self.types.names.standing(name)) {
            return Outcome::ok();
        }
        self.use_at(name)
    }

    // `kind#value`, where the type leads to this one.
    fn value_at(&self, number: usize, kind: &Name, value: &Name) -> Outcome
        ensures { let f = file_view self.now.types.names.file.now in result ≡ outcome_of (in_enumeration f number (name_view kind.now) (name_view value.now) (specification_at f number)) }
    {
        match self.types.shape_at(number) {
            Some(Shape::Elementary) => misused(kind),
            Some(Shape::Subrange) if self.is_whole_end(number) => misused(kind),
            Some(Shape::Enumeration(true)) => {
                if self.types.has_value(number, value) {
                    Outcome::ok()
                } else {
                    unknown(value)
                }
            }
            _ => Outcome::suppressed(),
        }
    }

    /// `kind#value`.
    pub fn enumerator(&self, kind: &Name, value: &Name) -> Outcome
        ensures { let f = file_view self.now.types.names.file.now in result ≡ outcome_of (in_enumerator f (name_view kind.now) (name_view value.now) (standing f (name_view kind.now).text)) }
    {
        match self.types.named_end(kind) {
            Some(number) => self.value_at(number, kind, value),
            None => self.use_at(kind),
        }
    }

    // Whether the declaration of a number uses a name in a circle.
    fn is_circular_use(&self, user: usize, name: &Name) -> bool
        ensures { result ≡ is_circular_use (file_view self.now.types.names.file.now) user (name_view name.now) }
    {
        let types = self.types.ends.as_slice().len();
        match self.types.names.declaration_number(types, name) {
            Some(used) => uses_in_circle(&self.circles, user, used),
            None => false,
        }
    }

    // A bound in the declaration of a number. Keeps the number of its name.
    fn bound(&self, numbers: &mut UseNumbers, user: usize, bound: &Expr) -> Outcome
        ensures { result ≡ outcome_of (in_bound (file_view self.now.types.names.file.now) user (tree_view bound.now)) }
    {
        match bound {
            Expr::Path(path) => {
                self.types.names.note(numbers, &path.first);
                if self.is_circular_use(user, &path.first) {
                    return misused(&path.first);
                }
                self.value_name(&path.first)
            }
            Expr::Enumerator(kind, value) => {
                self.types.names.note(numbers, value);
                if self.is_circular_use(user, kind) {
                    return misused(kind);
                }
                self.enumerator(kind, value)
            }
            _ => Outcome::ok(),
        }
    }

    // The bounds in the declaration of a number. Keeps the numbers of their names.
    #[tactic(auto, using(rules::proofs::Outcomes::outcome_and))]
    fn bounds(&self, numbers: &mut UseNumbers, user: usize, bounds: &Bounds) -> Outcome
        ensures { let f = file_view self.now.types.names.file.now in result ≡ outcome_of (and (in_bound f user (tree_view bounds.now.low)) (in_bound f user (tree_view bounds.now.high))) }
    {
        let low = self.bound(numbers, user, &bounds.low);
        low.and(self.bound(numbers, user, &bounds.high))
    }

    // A type by name in the declaration of a number. Keeps the number of the name.
    fn declared_type(&self, numbers: &mut UseNumbers, user: usize, name: &Name) -> Outcome
        ensures { result ≡ outcome_of (in_declared_type (file_view self.now.types.names.file.now) user (name_view name.now)) }
    {
        self.types.names.note(numbers, name);
        if is_type(self.types.names.standing(name)) {
            return Outcome::whole_if(self.is_whole_type_name(name));
        }
        if self.is_circular_use(user, name) {
            return misused(name);
        }
        self.use_at(name)
    }

    /// The specification of a type in the declaration of a number. Keeps the numbers of its names.
    pub fn specification(
        &self,
        numbers: &mut UseNumbers,
        user: usize,
        specification: &Specification,
    ) -> Outcome
        ensures { result ≡ outcome_of (in_specification (file_view self.now.types.names.file.now) user (specification_view specification.now)) }
    {
        match specification {
            Specification::Type(TypeName::Named(name)) => self.declared_type(numbers, user, name),
            Specification::Type(TypeName::Subrange(_, _, bounds)) => {
                self.bounds(numbers, user, bounds)
            }
            _ => Outcome::ok(),
        }
    }

    /// The type of the result of a POU, whose declaration has this number, where it is a FUNCTION. Keeps the number of its name.
    pub fn result(&self, numbers: &mut UseNumbers, user: usize, pou_type: &PouType) -> Outcome
        ensures { result ≡ outcome_of (in_result (file_view self.now.types.names.file.now) user (pou_type_view pou_type.now)) }
    {
        match pou_type {
            PouType::Function(TypeName::Named(name)) => self.declared_type(numbers, user, name),
            _ => Outcome::ok(),
        }
    }

    /// The FUNCTION_BLOCK of a name, by its number.
    pub fn block_named(&self, name: &Name) -> Option<usize>
        ensures { let f = file_view self.now.types.names.file.now in result ≡ block_number f (standing f (name_view name.now).text) }
    {
        let number = pou_number(self.types.names.standing(name))?;
        match self.pou_shape_at(number) {
            Some(PouShape::Block) => Some(number),
            _ => None,
        }
    }

    /// The FUNCTION_BLOCK of a type by name, by its number.
    pub fn block_of_type(&self, kind: &TypeName) -> Option<usize>
        ensures { result ≡ block_of_type (file_view self.now.types.names.file.now) (type_view kind.now) }
    {
        match kind {
            TypeName::Named(name) => self.block_named(name),
            _ => None,
        }
    }

    // The FUNCTION of a name whose declaration breaks no rule, by its number.
    fn function_named(&self, name: &Name) -> Option<usize>
        ensures { let f = file_view self.now.types.names.file.now in result ≡ option_and_then (number_if f (is_callable f)) (pou_number (standing f (name_view name.now).text)) }
    {
        let number = pou_number(self.types.names.standing(name))?;
        match self.pou_shape_at(number) {
            Some(PouShape::Function(true)) => Some(number),
            _ => None,
        }
    }

    /// What a call in an expression calls.
    pub fn callee(&self, name: &Name) -> Callee
        ensures { result ≡ callee_of (file_view self.now.types.names.file.now) (name_view name.now).text }
    {
        if is_library(name.text.as_str()) && !self.types.names.is_doubled(name) {
            return Callee::Standard;
        }
        match self.function_named(name) {
            Some(number) => Callee::Function(number),
            None => Callee::Unknown,
        }
    }
}

// What each POU of a file is.
fn pou_shapes(
    alloc: Global,
    types: &FileTypes<'_>,
    wholes: &[bool],
    pous: &[&Pou],
) -> Result<Vec<PouShape>, AllocError>
    requires wholes { let f = file_view types.now.names.file.now in Marks wholes.now (λ t. is_whole_end f t (specification_at f t)) }
    requires pous { pous_view pous.now ≡ pous_of (file_view types.now.names.file.now) }
    ensures { IfOk result (λ shapes. ArePouShapes (file_view types.now.names.file.now) shapes.items) }
{
    let all = Wholes { types, wholes };
    let shapes = all.pou_shapes(alloc, pous)?;
    Ok(shapes)
}

/// The scope of a file with these declarations. Keeps the first name that is declared twice, in the library or before.
pub fn file_scope<'a>(
    alloc: Global,
    file: &'a SourceFile,
    list: &Declarations<'_>,
    first: &mut Option<Refusal>,
) -> Result<FileScope<'a>, AllocError>
    requires types { types_view list.now.types.items ≡ types_of (file_view file.now) }
    requires names { file_names_view list.now.names.items ≡ names_of (file_view file.now) }
    requires pous { pous_view list.now.pous.items ≡ pous_of (file_view file.now) }
    ensures file { IfOk result (λ scope. file_view scope.types.names.file.now ≡ file_view file.now) }
    ensures twice { OnOk result (first.new ≡ earlier first.old (first_in (names_twice [] (names_of (file_view file.now))))) }
{
    let names = file_names(alloc, file, &list.names, first)?;
    let types = file_types(alloc, names, &list.types)?;
    let wholes = types.wholes(alloc, &list.types)?;
    let pous = pou_shapes(alloc, &types, &wholes, &list.pous)?;
    let circles = declaration_circles(alloc, &types.names, &list.types, &list.pous)?;
    Ok(FileScope {
        types,
        wholes,
        pous,
        circles,
    })
}
