//! The types of expressions as they are written, and what is said against them.

ghost use Rattle.std.specs.Prelude.{◌≡◌, ℕ, ◌^◌, ◌≤◌, nat_lt, None, is_some, option_and_then};
ghost use Rattle.qz_values.specs.Types.{width_of, IsType, is_vector, is_bool};
ghost use Rattle.qz_values.specs.Tables.{type1_of, type2_of, choose_type, bit_type, slice_type, concat_type};
ghost use Rattle.qz_types.specs.Faults.{first_with, unless};
ghost use Rattle.qz_types.specs.Scopes.{meanings_of};
ghost use Rattle.qz_types.specs.WrittenTypes.{vectors, type_of_text, type_faults, where_typed, where_both};
ghost use Rattle.qz_types.specs.ExpressionTypes.{told, literal_faults, variable_told, selected, selection_faults, joining_faults, first_token};

use crate::faults::{FirstFault, TypeKind};
use crate::scope::Scope;
use crate::variables::Variable;
use qz_syntax::{FileExpr, NameAt, TypeText};
use qz_values::{Op1, Op2, Ty, choose_type, concat_type, type1, type2};

/// The most bits of a vector.
const WIDEST: u8 = 64;

/// The type of an expression, if it has one.
pub(crate) fn type_of(names: &Scope<Variable>, e: &FileExpr, first: &mut FirstFault) -> Option<Ty>
    ensures ty { result ≡ (told (meanings_of names.now) e.now).ty }
    ensures faults { first.new.fault ≡ first_with first.old.fault (told (meanings_of names.now) e.now).faults }
{
    match e {
        FileExpr::Bool { .. } => Some(Ty::Bool),
        FileExpr::Lit { width, value, at } => literal(*width, *value, *at, first),
        FileExpr::Name(name) => variable(names, name, first),
        FileExpr::Paren { inner, .. } => type_of(names, inner.get(), first),
        FileExpr::Un { op, at, arg } => {
            let a = type_of(names, arg.get(), first);
            one(*op, *at, a, first)
        }
        FileExpr::Bin {
            op,
            at,
            left,
            right,
        } => {
            let a = type_of(names, left.get(), first);
            let b = type_of(names, right.get(), first);
            two(*op, *at, a, b, first)
        }
        FileExpr::Choose { at, cond, yes, no } => {
            let c = type_of(names, cond.get(), first);
            let a = type_of(names, yes.get(), first);
            let b = type_of(names, no.get(), first);
            choice(*at, c, a, b, first)
        }
        FileExpr::Select { at, arg, high, low } => {
            let a = type_of(names, arg.get(), first);
            selection(*at, *high, *low, a, first)
        }
        FileExpr::Concat { at, left, right } => {
            let a = type_of(names, left.get(), first);
            let b = type_of(names, right.get(), first);
            joined(*at, a, b, first)
        }
    }
}

/// The type of vectors of a width, unless it is out of range.
pub(crate) fn vectors(width: u128) -> Option<Ty>
    ensures { result ≡ vectors width }
{
    match u8::try_from(width) {
        Ok(width) if 1 <= width && width <= WIDEST => Some(Ty::Bv(width)),
        _ => None,
    }
}

/// The type that is written, unless its width is out of range.
pub(crate) fn type_of_text(text: TypeText) -> Option<Ty>
    ensures { result ≡ type_of_text text }
{
    match text {
        TypeText::Bool => Some(Ty::Bool),
        TypeText::Bv { width, .. } => vectors(width),
    }
}

/// Whether it is `bool`.
pub(crate) fn is_bool(a: Ty) -> bool
    ensures { result ≡ is_bool a }
{
    match a {
        Ty::Bool => true,
        Ty::Bv(_) => false,
    }
}

fn is_vector(a: Ty) -> bool
    ensures { result ≡ is_vector a }
{
    type1(Op1::Invert, a).is_some()
}

fn literal(width: u128, value: u128, at: u32, first: &mut FirstFault) -> Option<Ty>
    ensures ty { result ≡ vectors width }
    ensures faults { first.new.fault ≡ first_with first.old.fault (literal_faults (vectors width) value at) }
{
    let ty = vectors(width);
    match ty {
        Some(ty) => first.check(fits(value, ty), TypeKind::LiteralRange, at),
        None => first.note(TypeKind::WidthRange, at),
    }
    ty
}

/// Whether the bits of a type hold a number.
fn fits(value: u128, ty: Ty) -> bool
    requires { IsType ty }
    ensures { result ≡ nat_lt value (2 ^ width_of ty) }
{
    let width = match ty {
        Ty::Bool => 1,
        Ty::Bv(width) => width,
    };
    value < 1u128 << width
}

fn variable(names: &Scope<Variable>, name: &NameAt, first: &mut FirstFault) -> Option<Ty>
    ensures ty { result ≡ (variable_told (meanings_of names.now name.now.name) name.now.at).ty }
    ensures faults { first.new.fault
        ≡ first_with first.old.fault (variable_told (meanings_of names.now name.now.name) name.now.at).faults }
{
    match names.get(&name.name) {
        Some(variable) => variable.ty,
        None => {
            first.note(TypeKind::UnknownName, name.at);
            None
        }
    }
}

/// An operator with one operand.
fn one(op: Op1, at: u32, a: Option<Ty>, first: &mut FirstFault) -> Option<Ty>
    ensures ty { result ≡ option_and_then (λ s. type1_of op s) a }
    ensures faults { first.new.fault
        ≡ first_with first.old.fault (where_typed a (λ s. unless (is_some (type1_of op s)) TypeKind.TypeDiffers at)) }
{
    let ty = type1(op, a?);
    first.check(ty.is_some(), TypeKind::TypeDiffers, at);
    ty
}

/// An operator with two operands.
fn two(op: Op2, at: u32, a: Option<Ty>, b: Option<Ty>, first: &mut FirstFault) -> Option<Ty>
    ensures ty { result ≡ option_and_then (λ s. option_and_then (λ t. type2_of op s t) b) a }
    ensures faults { first.new.fault
        ≡ first_with first.old.fault (where_both a b (λ s t. unless (is_some (type2_of op s t)) TypeKind.TypeDiffers at)) }
{
    let ty = type2(op, a?, b?);
    first.check(ty.is_some(), TypeKind::TypeDiffers, at);
    ty
}

/// `c ? a : b`
fn choice(
    at: u32,
    c: Option<Ty>,
    a: Option<Ty>,
    b: Option<Ty>,
    first: &mut FirstFault,
) -> Option<Ty>
    ensures ty { result ≡ option_and_then (λ r. option_and_then (λ s. option_and_then (λ t. choose_type r s t) b) a) c }
    ensures faults { first.new.fault ≡ first_with first.old.fault (where_typed c (λ r. where_both a b (λ s t.
        unless (is_some (choose_type r s t)) TypeKind.TypeDiffers at))) }
{
    let ty = choose_type(c?, a?, b?);
    first.check(ty.is_some(), TypeKind::TypeDiffers, at);
    ty
}

/// `a{high}` or `a{high:low}`
fn selection(
    at: u32,
    high: u128,
    low: Option<u128>,
    a: Option<Ty>,
    first: &mut FirstFault,
) -> Option<Ty>
    ensures ty { result ≡ option_and_then (λ t. selected t high low) a }
    ensures faults { first.new.fault ≡ first_with first.old.fault (where_typed a (selection_faults at high low)) }
{
    let a = a?;
    let ty = selected(a, high, low);
    if is_vector(a) {
        first.check(ty.is_some(), TypeKind::SliceRange, at);
    } else {
        first.note(TypeKind::TypeDiffers, at);
    }
    ty
}

fn selected(a: Ty, high: u128, low: Option<u128>) -> Option<Ty>
    ensures { result ≡ selected a high low }
{
    match low {
        None => bit_of(a, high),
        Some(low) => slice_of(a, high, low),
    }
}

fn bit_of(a: Ty, index: u128) -> Option<Ty>
    ensures { result ≡ bit_type a index }
{
    match a {
        Ty::Bv(width) if is_vector(a) && index < u128::from(width) => Some(Ty::Bool),
        _ => None,
    }
}

fn slice_of(a: Ty, high: u128, low: u128) -> Option<Ty>
    ensures { result ≡ slice_type a high low }
{
    match a {
        Ty::Bv(width) if is_vector(a) && low <= high && high < u128::from(width) => vectors(
            high - low + 1,
        ),
        _ => None,
    }
}

/// `a @ b`
fn joined(at: u32, a: Option<Ty>, b: Option<Ty>, first: &mut FirstFault) -> Option<Ty>
    ensures ty { result ≡ option_and_then (λ s. option_and_then (λ t. concat_type s t) b) a }
    ensures faults { first.new.fault ≡ first_with first.old.fault (where_both a b (joining_faults at)) }
{
    let a = a?;
    let b = b?;
    let ty = concat_type(a, b);
    if is_vector(a) && is_vector(b) {
        first.check(ty.is_some(), TypeKind::WidthRange, at);
    } else {
        first.note(TypeKind::TypeDiffers, at);
    }
    ty
}

/// The offset of an expression's first token.
pub(crate) fn first_token(e: &FileExpr) -> u32
    ensures { result ≡ first_token e.now }
{
    match e {
        FileExpr::Bool { at, .. }
        | FileExpr::Lit { at, .. }
        | FileExpr::Paren { at, .. }
        | FileExpr::Un { at, .. } => *at,
        FileExpr::Name(name) => name.at,
        FileExpr::Bin { left, .. } | FileExpr::Concat { left, .. } => first_token(left.get()),
        FileExpr::Choose { cond, .. } => first_token(cond.get()),
        FileExpr::Select { arg, .. } => first_token(arg.get()),
    }
}
