//! How what a command made is put and written.

ghost use Rattle.std.specs.Prelude.{◌≡◌, ◌<◌, [], All, length, IsOk, OnOk, OnErr};
ghost use Rattle.tm_io.specs.Shelf.{HasRoom};
ghost use Rattle.tm_io.specs.Sink.{took, HasRoomFor};
ghost use Rattle.tm_prog.specs.World.{world, all_put, all_done, PutsStopped, WriteStopped, IsHalfDone, IsReady};

use crate::made::{Made, Put};
use tm_io::{Failed, Shelf, Sink};

/// Puts all that is to be put, in order, and then writes the text. A put that failed is followed by no
/// other put or write.
pub(crate) fn deliver<F: Shelf, K: Sink>(
    made: &Made<'_>,
    shelf: &mut F,
    out: &mut K,
) -> Result<(), Failed>
    ensures done { OnOk result (world (F.seen shelf.new) (K.seen out.new) ≡ all_done made.now (world (F.seen shelf.old) (K.seen out.old))) }
    ensures half_done { OnErr result (IsHalfDone made.now (world (F.seen shelf.old) (K.seen out.old)) (world (F.seen shelf.new) (K.seen out.new))) }
    ensures ready { IsReady made.now (world (F.seen shelf.old) (K.seen out.old)) → IsOk result }
    ensures silent { made.now.text ≡ [] → out.new ≡ out.old }
{
    put_all(made.puts(), shelf)?;
    write_all(made.text(), out)
}

fn put_all<F: Shelf>(puts: &[Put<'_>], shelf: &mut F) -> Result<(), Failed>
    ensures done { OnOk result (F.seen shelf.new ≡ all_put puts.now (F.seen shelf.old)) }
    ensures stopped { OnErr result (PutsStopped puts.now (F.seen shelf.old) (F.seen shelf.new)) }
    ensures ready { All (λ p. HasRoom (F.seen shelf.old) p.name p.bytes) puts.now → IsOk result }
{
    for put in puts {
        if shelf.put(put.name(), put.bytes()).is_err() {
            return Err(Failed);
        }
    }
    Ok(())
}

/// Hands the whole unwritten rest to `write` until it is empty. An empty text is no write at all.
fn write_all<K: Sink>(text: &[u8], out: &mut K) -> Result<(), Failed>
    ensures done { OnOk result (K.seen out.new ≡ took (K.seen out.old) text.now) }
    ensures stopped { OnErr result (WriteStopped text.now (K.seen out.old) (K.seen out.new)) }
    ensures ready { (0 < length text.now → HasRoomFor (K.seen out.old) (length text.now)) → IsOk result }
    ensures silent { text.now ≡ [] → out.new ≡ out.old }
{
    let mut done = 0;
    while done < text.len() {
        done += out.write(&text[done..])?;
    }
    Ok(())
}
