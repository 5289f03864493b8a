//! What is said against the arguments of a call.

ghost use Rattle.std.specs.Prelude.{◌≡◌, ◌∷◌, length, Some};
ghost use Rattle.qz_types.specs.Faults.{first_with, unless, fault_at};
ghost use Rattle.qz_types.specs.Scopes.{meanings_of};
ghost use Rattle.qz_types.specs.ExpressionTypes.{told, first_token};
ghost use Rattle.qz_types.specs.WrittenTypes.{type_of_text, where_both};
ghost use Rattle.qz_values.specs.Types.{is_same_type};
ghost use Rattle.qz_syntax.specs.Typing.{is_same_class};
ghost use Rattle.qz_types.specs.ArgumentFaults.{argument_faults, direction_faults, is_writable, output_name_faults, matched_faults, own_faults};

use crate::expressions::{first_token, type_of, type_of_text};
use crate::faults::{FirstFault, TypeKind};
use crate::scope::Scope;
use crate::variables::Variable;
use qz_syntax::{Class, Dir, FileExpr, FileFormal, NameAt};
use qz_values::{Ty, is_same_type};

/// Looks at each of some arguments by itself.
pub(crate) fn own(names: &Scope<Variable>, arguments: &[FileExpr], first: &mut FirstFault)
    ensures { first.new.fault ≡ first_with first.old.fault (own_faults (meanings_of names.now) arguments.now) }
{
    for argument in arguments {
        type_of(names, argument, first);
    }
}

/// Looks at as many arguments as there are formals.
pub(crate) fn matched(
    names: &Scope<Variable>,
    formals: &[FileFormal],
    arguments: &[FileExpr],
    first: &mut FirstFault,
)
    ensures { first.new.fault ≡ first_with first.old.fault (matched_faults (meanings_of names.now) formals.now arguments.now) }
{
    let mut rest = formals;
    for argument in arguments {
        match rest.split_first() {
            None => return,
            Some((formal, more)) => {
                matched_one(names, formal, argument, first);
                rest = more;
            }
        }
    }
}

/// Looks at an argument and its formal.
fn matched_one(
    names: &Scope<Variable>,
    formal: &FileFormal,
    argument: &FileExpr,
    first: &mut FirstFault,
)
    ensures { first.new.fault ≡ first_with first.old.fault (argument_faults (meanings_of names.now) formal.now argument.now) }
{
    let ty = type_of(names, argument, first);
    let at = first_token(argument);
    both(ty, type_of_text(formal.ty), at, first);
    direction(names, formal.dir, formal.class, argument, first);
}

/// Two types at one place, which have to be one.
pub(crate) fn both(a: Option<Ty>, b: Option<Ty>, at: u32, first: &mut FirstFault)
    ensures { first.new.fault
        ≡ first_with first.old.fault (where_both a b (λ s t. unless (is_same_type s t) TypeKind.TypeDiffers at)) }
{
    if let Some(a) = a {
        if let Some(b) = b {
            first.check(is_same_type(a, b), TypeKind::TypeDiffers, at);
        }
    }
}

fn direction(
    names: &Scope<Variable>,
    dir: Dir,
    class: Class,
    argument: &FileExpr,
    first: &mut FirstFault,
)
    ensures { first.new.fault
        ≡ first_with first.old.fault (direction_faults (meanings_of names.now) dir class argument.now) }
{
    match dir {
        Dir::In => {}
        Dir::Out => match argument {
            FileExpr::Name(name) => output_name(names, class, name, first),
            _ => first.note(TypeKind::NotWritable, first_token(argument)),
        },
    }
}

fn output_name(names: &Scope<Variable>, class: Class, name: &NameAt, first: &mut FirstFault)
    ensures { first.new.fault
        ≡ first_with first.old.fault (output_name_faults class name.now.at (meanings_of names.now name.now.name)) }
{
    match names.get(&name.name) {
        None => {}
        Some(variable) => {
            first.check(is_writable(variable.dir), TypeKind::NotWritable, name.at);
            first.check(
                is_same_class(variable.class, class),
                TypeKind::ArgClass,
                name.at,
            );
        }
    }
}

/// Whether it is no input.
pub(crate) fn is_writable(dir: Dir) -> bool
    ensures { result ≡ is_writable dir }
{
    match dir {
        Dir::In => false,
        Dir::Out => true,
    }
}

fn is_same_class(a: Class, b: Class) -> bool
    ensures { result ≡ is_same_class a b }
{
    match a {
        Class::Event => match b {
            Class::Event => true,
            Class::Mem => false,
        },
        Class::Mem => match b {
            Class::Event => false,
            Class::Mem => true,
        },
    }
}
