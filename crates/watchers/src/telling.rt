//! Lists of watchers.

ghost use Rattle.std.specs.Prelude.{◌≡◌, [], ◌∷◌, true, false, map, nat_lt, length};
ghost use Rattle.std.specs.List.{remove};
ghost use Rattle.watchers.specs.Watched.{Told, told};

use crate::watcher::Watcher;
use event_list::Event;
use std::alloc::Global;

/// Tells each of an event.
pub fn tell<W: Watcher>(alloc: Global, list: &mut Vec<W>, e: &Event) -> usize
    ensures { Told (e.now ∷ []) (map W.watched list.old.items) (map W.watched list.new.items) result }
{
    let mut dropped = 0;
    let mut i = 0;
    while i < list.len() {
        if tell_one(alloc, &mut list[i], e) {
            i += 1;
        } else {
            let _ = list.remove(i);
            dropped += 1;
        }
    }
    dropped
}

/// Drops one.
pub fn detach<W: Watcher>(list: &mut Vec<W>, k: u32) -> bool
    ensures none { result ≡ nat_lt k (length list.old.items) }
    ensures detached { result ≡ true → map W.watched list.new.items ≡ remove (map W.watched list.old.items) k }
    ensures same { result ≡ false → list.new.items ≡ list.old.items }
{
    let k = k as usize;
    if k >= list.len() {
        return false;
    }
    let _ = list.remove(k);
    true
}

/// Tells one watcher, and answers whether it noted the event.
fn tell_one<W: Watcher>(alloc: Global, w: &mut W, e: &Event) -> bool
    ensures noted { result ≡ true → W.watched w.new ≡ told (W.watched w.old) e.now }
    ensures lacked { result ≡ false → W.watched w.new ≡ W.watched w.old }
    ensures steady { result ≡ false → (W.watched w.old).kind.steady ≡ false }
{
    w.see(alloc, e).is_ok()
}
