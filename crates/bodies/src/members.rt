//! An object of truth values, texts and numbers that is written as it is told, with no value between.
ghost use Rattle.std.specs.Prelude.{◌≡◌, [], ◌∷◌, ◌++◌, IfOk, decimal};
ghost use Rattle.json.specs.Token.{begin_object, end_object, key, string, number, boolean};
ghost use Rattle.json.specs.Print.{print};
ghost use Rattle.zookie.specs.Text.{zookie_text};

use json::Writer;
use std::alloc::{AllocError, Global};
use zookie::Zookie;

/// The bytes that a short reply takes.
const ROOM: usize = 64;

/// An object that is begun, with no member yet.
pub(crate) fn opened(alloc: Global) -> Result<Writer, AllocError>
    ensures before { IfOk result (λ w. w.before ≡ []) }
    ensures tokens { IfOk result (λ w. w.tokens ≡ begin_object ∷ []) }
{
    let mut out = Writer::new(Vec::with_capacity(alloc, ROOM)?);
    out.begin_object()?;
    Ok(out)
}

pub(crate) fn put_flag(out: &mut Writer, name: &str, flag: bool) -> Result<(), AllocError>
    ensures before { out.new.before ≡ out.old.before }
    ensures tokens { IfOk result (λ _. out.new.tokens ≡ out.old.tokens ++ key name.now ∷ boolean flag ∷ []) }
{
    out.key(name)?;
    out.boolean(flag)
}

pub(crate) fn put_number(out: &mut Writer, name: &str, n: u64) -> Result<(), AllocError>
    ensures before { out.new.before ≡ out.old.before }
    ensures tokens { IfOk result (λ _. out.new.tokens ≡ out.old.tokens ++ key name.now ∷ number (decimal n) ∷ []) }
{
    out.key(name)?;
    out.u64(n)
}

/// A member that is a zookie's text.
pub(crate) fn put_zookie(
    alloc: Global,
    out: &mut Writer,
    name: &str,
    zookie: &Zookie,
) -> Result<(), AllocError>
    ensures before { out.new.before ≡ out.old.before }
    ensures tokens { IfOk result (λ _. out.new.tokens ≡ out.old.tokens
        ++ key name.now ∷ string (zookie_text zookie.now.store zookie.now.rev) ∷ []) }
{
    let text = zookie.to_text(alloc)?;
    out.key(name)?;
    out.string(&text)
}

/// A member that is the zookie of a revision of a store.
pub(crate) fn put_rev(
    alloc: Global,
    out: &mut Writer,
    name: &str,
    store: u64,
    rev: u64,
) -> Result<(), AllocError>
    ensures before { out.new.before ≡ out.old.before }
    ensures tokens { IfOk result (λ _. out.new.tokens ≡ out.old.tokens ++ key name.now ∷ string (zookie_text store rev) ∷ []) }
{
    put_zookie(alloc, out, name, &Zookie { store, rev })
}

/// The text of an object that is ended.
pub(crate) fn closed(out: Writer) -> Result<Vec<u8>, AllocError>
    ensures { IfOk result (λ b. b.items ≡ out.before ++ print (out.tokens ++ end_object ∷ [])) }
{
    let mut out = out;
    out.end_object()?;
    Ok(out.into_inner())
}
