//! The members of a JSON object, token by token. No value is made.

ghost use Rattle.std.specs.Prelude.{◌∷◌, ◌++◌, [], decimal, flat_map, map, OnOk};
ghost use Rattle.json.specs.Token.{key, string, number, boolean, end_array};
ghost use Rattle.serde_json.specs.Data.{array};
ghost use Rattle.serde_json.specs.View.{items_of};
ghost use Rattle.wire.specs.Tokens.{Adds, data_tokens};

use json::Writer;
use std::alloc::AllocError;

/// A text under a name.
pub fn put_text(out: &mut Writer, name: &str, text: &str) -> Result<(), AllocError>
    ensures { OnOk result (Adds out.old out.new (key name.now ∷ string text.now ∷ [])) }
{
    out.key(name)?;
    out.string(text)
}

/// A number under a name.
pub fn put_count(out: &mut Writer, name: &str, count: u64) -> Result<(), AllocError>
    ensures { OnOk result (Adds out.old out.new (key name.now ∷ number (decimal count) ∷ [])) }
{
    out.key(name)?;
    out.u64(count)
}

/// A truth value under a name.
pub fn put_flag(out: &mut Writer, name: &str, flag: bool) -> Result<(), AllocError>
    ensures { OnOk result (Adds out.old out.new (key name.now ∷ boolean flag ∷ [])) }
{
    out.key(name)?;
    out.boolean(flag)
}

/// What stands in a list.
pub trait Member {
    ghost use Rattle.serde_json.specs.Data.{Data};

    ghost shown: { Self → Data };

    /// Its tokens.
    fn put(&self, out: &mut Writer) -> Result<(), AllocError>
        ensures { OnOk result (Adds out.old out.new (data_tokens (shown self.now))) };
}

/// One after another.
fn put_each<T: Member>(out: &mut Writer, items: &[T]) -> Result<(), AllocError>
    ensures { OnOk result (Adds out.old out.new (flat_map (λ x. data_tokens (T.shown x)) items.now)) }
{
    for item in items {
        item.put(out)?;
    }
    Ok(())
}

/// The end of a list, after what stands in it.
fn put_rest<T: Member>(out: &mut Writer, items: &[T]) -> Result<(), AllocError>
    ensures { OnOk result (Adds out.old out.new (flat_map (λ x. data_tokens (T.shown x)) items.now ++ end_array ∷ [])) }
{
    put_each(out, items)?;
    out.end_array()
}

/// A list under a name.
pub fn put_list<T: Member>(out: &mut Writer, name: &str, items: &[T]) -> Result<(), AllocError>
    ensures { OnOk result (Adds out.old out.new (key name.now ∷ data_tokens (array (items_of (map T.shown items.now))))) }
{
    out.key(name)?;
    out.begin_array()?;
    put_rest(out, items)
}
