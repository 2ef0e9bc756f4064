// Lists that grow while code is specialised.

ghost use Rattle.std.specs.Prelude.{◌≡◌, [], ◌∷◌, IfOk};

use std::alloc::Global;
use terra_term::TermList;
use tl_base::{List, NoMemory, TermId};

/// One item.
pub fn single<T: Drop>(alloc: Global, item: T) -> Result<List<T>, NoMemory>
    ensures { IfOk result (λ list. list ≡ item ∷ []) }
{
    let mut list = List::new(alloc);
    list.push(item)?;
    Ok(list)
}

/// The terms where there are some, as a list within a term.
pub fn list_if_any(terms: Option<List<TermId>>) -> Result<Option<TermList>, NoMemory>
    ensures { IfOk result (λ list. list ≡ terms) }
{
    match terms {
        Some(terms) => Ok(Some(TermList::from_list(terms)?)),
        None => Ok(None),
    }
}
