// The POUs of a file: their variables, their sizes, and their numbers among those that may be called.
ghost use Rattle.std.specs.Prelude.{◌≡◌, [], map, option_map, slice_set, IfOk};
ghost use Rattle.source_tree.specs.SyntaxView.{pou_view, file_view};
ghost use Rattle.decl_types.specs.Bodies.{file_in};
ghost use Rattle.typing.specs.Members.{no_port, ports_of, result_of, may_be_called, called_order, numbers_of};
ghost use Rattle.typing.specs.Reached.{reached_order};
ghost use Rattle.decl_types.specs.ToldView.{told_view};
ghost use Rattle.pou_cells.specs.PouTables.{all_members, all_ports, HaveFewCells};
ghost use Rattle.pou_cells.specs.ToldMembers.{all_told};

use crate::block_members::{port_of, ports_of, seen_from};
use crate::named_members::member_bound;
use crate::reached::reached_order;
use crate::tables::{all_members, all_told, told_of_pou};
use decl_types::{Domains, Told, function_number, pou_at};
use file_bindings::Resolved;
use plc_types::DataType;
use source_tree::{Name, Pou, PouType};
use std::alloc::{AllocError, Global};
use typing::{Instance, Meaning, Member, Port, Signature};

/// The POUs of a file, by their numbers: what is told of the variables of each, these at their places where each block counts as one
/// without cells, and its inputs; which are reached, in an order in which each stands behind those that it uses, which of these may be
/// called, and the number of each among them.
#[derive(Drop)]
pub struct Pous<'p> {
    pub domains: Domains<'p>,
    pub reached: Vec<usize>,
    pub called: Vec<usize>,
    numbers: Vec<usize>,
    told: Vec<Vec<Told<'p>>>,
    members: Vec<Vec<Member>>,
    ports: Vec<Vec<Port>>,
    ghost within: { reached.items ≡ reached_order (file_in domains) },
    ghost ordered: { called.items ≡ called_order (file_in domains) },
    ghost numbered: { numbers.items ≡ numbers_of (file_in domains) },
    ghost judged: { map (λ v. map told_view v.items) told.items ≡ all_told (file_in domains) },
    ghost known: { map (λ v. v.items) members.items ≡ all_members (file_in domains) [] },
    ghost given: { map (λ v. v.items) ports.items ≡ all_ports (file_in domains) [] },
    ghost few: { HaveFewCells (file_in domains) },
}

// Whether a POU is a FUNCTION or a FUNCTION_BLOCK.
fn may_be_called(pou: Option<&Pou>) -> bool
    ensures { result ≡ may_be_called (option_map (λ p. (pou_view p.now).pou_type) pou.entry) }
{
    match pou {
        None => false,
        Some(pou) => match pou.pou_type {
            PouType::Function(_) | PouType::FunctionBlock => true,
            PouType::Program => false,
        },
    }
}

// Those of the POUs that are reached which may be called, in their order.
#[tactic(auto, unfolding(typing::specs::Members::called_order))]
fn called_order(
    alloc: Global,
    names: &Resolved<'_>,
    reached: &[usize],
) -> Result<Vec<usize>, AllocError>
    requires { reached.now ≡ reached_order (file_view names.now.file.now) }
    ensures { IfOk result (λ list. list.items ≡ called_order (file_view names.now.file.now)) }
{
    let mut list = Vec::new(alloc);
    for number in reached {
        if may_be_called(pou_at(names, *number)) {
            list.push(*number)?;
        }
    }
    Ok(list)
}

// Gives a POU a number, where there is one.
fn keep(numbers: &mut [usize], pou: usize, number: usize)
    ensures { numbers.new ≡ slice_set numbers.old pou number }
{
    if pou < numbers.len() {
        numbers[pou] = number;
    }
}

// The numbers of POUs among those that may be called.
#[tactic(auto, unfolding(typing::specs::Members::numbers_of))]
fn numbers_of(
    alloc: Global,
    names: &Resolved<'_>,
    called: &[usize],
) -> Result<Vec<usize>, AllocError>
    requires { called.now ≡ called_order (file_view names.now.file.now) }
    ensures { IfOk result (λ numbers. numbers.items ≡ numbers_of (file_view names.now.file.now)) }
{
    let mut numbers = vec![in alloc; 0; names.pou_count()]?;
    for (number, pou) in called.iter().enumerate() {
        keep(&mut numbers, *pou, number);
    }
    Ok(numbers)
}

// The inputs of all POUs.
fn all_ports(alloc: Global, members: &[Vec<Member>]) -> Result<Vec<Vec<Port>>, AllocError>
    ensures { IfOk result (λ list. map (λ v. v.items) list.items ≡ map (λ v. ports_of v.items) members.now) }
{
    let mut list = Vec::new(alloc);
    for own in members {
        list.push(ports_of(alloc, own)?)?;
    }
    Ok(list)
}

// What is no input and no result.
fn no_port() -> Port
    ensures { result ≡ no_port }
{
    Port {
        kind: DataType::Unknown,
        whole: false,
    }
}

// What a FUNCTION with these variables answers.
fn result_of(members: &[Member]) -> Port
    ensures { result ≡ result_of members.now }
{
    match members.first() {
        None => no_port(),
        Some(member) => port_of(*member),
    }
}

impl<'p> Pous<'p> {
    ghost use Rattle.std.specs.Prelude.{◌<◌, ◌^◌, IfSome};
    ghost use Rattle.std.specs.List.{slice_get};
    ghost use Rattle.source_tree.specs.SyntaxView.{name_view, names_view};
    ghost use Rattle.pou_cells.specs.ToldPlaces.{told_at};
    ghost use Rattle.typing.specs.Members.{member_at, members_at, called_number, signature_of, signature_at, instance_of, in_instance, meant_by};

    /// The POUs of a file whose names are bound.
    pub fn new(alloc: Global, names: &'p Resolved<'p>) -> Result<Pous<'p>, AllocError>
        ensures { IfOk result (λ s. file_in s.domains ≡ file_view names.now.file.now) }
    {
        let domains = Domains::new(alloc, names)?;
        let reached = reached_order(alloc, domains.types.names)?;
        let called = called_order(alloc, domains.types.names, &reached)?;
        let numbers = numbers_of(alloc, domains.types.names, &called)?;
        let told = all_told(alloc, &domains)?;
        let members = all_members(alloc, &domains, &told)?;
        let ports = all_ports(alloc, &members)?;
        Ok(Pous {
            domains,
            reached,
            called,
            numbers,
            told,
            members,
            ports,
        })
    }

    /// What is told of the variables of a POU by its number, in declared order.
    pub fn told_at(&self, number: usize) -> &[Told<'p>]
        ensures { map told_view result.now ≡ told_at (file_in self.now.domains) number }
    {
        told_of_pou(&self.told, number)
    }

    // The variables of a POU by its number.
    fn members_at(&self, number: usize) -> &[Member]
        ensures { result.now ≡ members_at (file_in self.now.domains) [] number }
    {
        match self.members.get(number) {
            None => &[],
            Some(members) => members,
        }
    }

    // The inputs of a POU by its number.
    fn ports_at(&self, number: usize) -> &[Port]
        ensures { result.now ≡ ports_of (members_at (file_in self.now.domains) [] number) }
    {
        match self.ports.get(number) {
            None => &[],
            Some(ports) => ports,
        }
    }

    /// The input at a place among those of a POU, by its number.
    pub(crate) fn port(&self, number: usize, place: usize) -> Option<Port>
        ensures { result ≡ slice_get (ports_of (members_at (file_in self.now.domains) [] number)) place }
    {
        self.ports_at(number).get(place).copied()
    }

    /// The variable that a name means in the POU of a number, in constant time.
    pub fn member_of(&self, number: usize, name: &Name) -> Option<Member>
        ensures low { IfSome result (λ m. m.cell < 2 ^ 63) }
        ensures member { result ≡ member_at (file_in self.now.domains) [] number (name_view name.now).text }
    {
        let bound = self.domains.types.names.bound(number, name);
        member_bound(self.members_at(number), bound)
    }

    // The number of a POU among those that may be called.
    fn called_number(&self, number: usize) -> usize
        ensures { result ≡ called_number (file_in self.now.domains) number }
    {
        self.numbers.get(number).copied().unwrap_or(0)
    }

    // A FUNCTION by its number.
    fn signature_of(&self, number: usize) -> Signature
        ensures { result ≡ signature_of (file_in self.now.domains) [] number }
    {
        Signature {
            function: number,
            number: self.called_number(number),
            result: result_of(self.members_at(number)),
            count: self.ports_at(number).len(),
        }
    }

    /// The FUNCTION of a name that is used.
    pub fn signature(&self, name: &Name) -> Option<Signature>
        ensures { result ≡ signature_at (file_in self.now.domains) [] (name_view name.now).text }
    {
        match function_number(self.domains.types.names, name) {
            None => None,
            Some(number) => Some(self.signature_of(number)),
        }
    }

    /// The instance that a variable is.
    pub fn instance_of(&self, member: Member) -> Option<Instance>
        ensures { result ≡ instance_of (file_in self.now.domains) member }
    {
        match member.block {
            None => None,
            Some(block) => Some(Instance {
                block: self.called_number(block),
                offset: member.cell,
            }),
        }
    }

    // What a name stands for behind an instance of a block.
    fn in_instance(&self, cell: usize, name: &Name, block: Option<usize>) -> Option<Meaning>
        requires { cell < 2 ^ 63 }
        ensures { result ≡ in_instance (file_in self.now.domains) [] cell (name_view name.now) block }
    {
        match self.member_of(block?, name) {
            None => None,
            Some(member) => Some(seen_from(cell, member)),
        }
    }

    /// What a path stands for that begins with a variable or a step.
    pub fn meant_by(&self, members: &[Name], member: Member) -> Option<Meaning>
        requires { member.cell < 2 ^ 63 }
        ensures { result ≡ meant_by (file_in self.now.domains) [] (names_view members.now) member }
    {
        match members.first() {
            None => Some(member.meaning),
            Some(_) if member.role.is_step() => Some(member.meaning),
            Some(name) => self.in_instance(member.cell, name, member.block),
        }
    }
}
