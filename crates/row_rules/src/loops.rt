//! Loops along a list, each written once: which elements pass a test, and what is made of each.

ghost use Rattle.std.specs.Prelude.{◌≡◌, filter, map, not, IfOk};

use crate::list_parts::push_if;
use std::alloc::{AllocError, Global};

/// A test of elements, by what it looks at.
pub trait Test<T> {
    ghost use Rattle.std.specs.Prelude.{Bool};

    ghost test: { Self → T → Bool };

    fn passes(&self, element: &T) -> bool
        ensures { result ≡ test self.now element.now };
}

/// What is made of elements, by what it is made from.
pub trait Make<T, U> {
    ghost use Rattle.std.specs.Prelude.{IfOk};

    ghost made: { Self → T → U };

    fn make(&self, alloc: Global, element: &T) -> Result<U, AllocError>
        ensures { IfOk result (λ u. u ≡ made self.now element.now) };
}

/// The elements that pass, in their order.
pub fn passing<T: Copy, P: Test<T>>(
    alloc: Global,
    elements: &[T],
    by: &P,
) -> Result<Vec<T>, AllocError>
    ensures { IfOk result (λ v. v.items ≡ filter (P.test by.now) elements.now) }
{
    let mut kept = Vec::new(alloc);
    for element in elements {
        let wanted = by.passes(element);
        push_if(&mut kept, wanted, *element)?;
    }
    Ok(kept)
}

/// The elements that do not pass, in their order.
pub fn failing<T: Copy, P: Test<T>>(
    alloc: Global,
    elements: &[T],
    by: &P,
) -> Result<Vec<T>, AllocError>
    ensures { IfOk result (λ v. v.items ≡ filter (λ x. not (P.test by.now x)) elements.now) }
{
    let mut kept = Vec::new(alloc);
    for element in elements {
        let passes = by.passes(element);
        push_if(&mut kept, !passes, *element)?;
    }
    Ok(kept)
}

/// What is made of each element.
pub fn each_made<T: Copy, U: Drop, M: Make<T, U>>(
    alloc: Global,
    elements: &[T],
    by: &M,
) -> Result<Vec<U>, AllocError>
    ensures { IfOk result (λ v. v.items ≡ map (M.made by.now) elements.now) }
{
    let mut made = Vec::new(alloc);
    for element in elements {
        let one = by.make(alloc, element)?;
        made.push(one)?;
    }
    Ok(made)
}
