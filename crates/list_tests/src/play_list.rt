//! A play list, as an example of documents: a queue of songs, and the songs that were played.

use crate::values::{Values, has_number};
use arena_ptr::{ChainInsertionError, PtrKey};
use chain_traits::ChainArenaTrait;
use documents::{Document, Documents, Entry};
use std::alloc::Global;

#[derive(Drop)]
struct PlayList<P: PtrKey, T: Drop, A: ChainArenaTrait<P, Entry<T>> + Drop> {
    songs: Documents<P, T, A>,
    queue: Document<P>,
    played: Document<P>,
}

impl<P: PtrKey, T: Drop, A: ChainArenaTrait<P, Entry<T>> + Drop> PlayList<P, T, A> {
    // Adds a song at the end of the queue.
    fn add(&mut self, song: T) -> Result<P, ChainInsertionError> {
        self.songs.push_back(self.queue, song)
    }

    // Plays the first song of the queue, if there is one.
    fn play_next(&mut self) -> Option<&T> {
        let song = self.songs.first(self.queue)?;
        self.songs.move_to_back(song, self.played)?;
        self.songs.get(song)
    }

    // Puts the song that was played last back to the front of the queue.
    fn undo(&mut self) -> Option<()> {
        let song = self.songs.last(self.played)?;
        self.songs.move_to_front(song, self.queue)
    }

    // Moves a group of songs to the front of the queue, if they follow one another.
    fn group_to_front(&mut self, first: P, last: P) -> bool {
        let queue = self.queue;
        self.songs.is_range_without(first, last, queue.head)
            && self.songs.move_range_to_front(first, last, queue).is_some()
    }

    // Moves groups to the front of the queue, one after another, each by its first and last song.
    fn shuffle(&mut self, groups: &[(P, P)]) {
        for (first, last) in groups {
            self.group_to_front(*first, *last);
        }
    }
}

// Adds the songs 1 to 4, and returns their pointers.
fn add_four<P: PtrKey, T: Drop, A: ChainArenaTrait<P, Entry<T>> + Drop, V: Values<T>>(
    list: &mut PlayList<P, T, A>,
) -> Result<(P, P, P, P), ChainInsertionError> {
    let (one, two) = (list.add(V::value_of(1))?, list.add(V::value_of(2))?);
    Ok((
        one,
        two,
        list.add(V::value_of(3))?,
        list.add(V::value_of(4))?,
    ))
}

// Plays four songs, which then are undone, and returns whether their numbers are these digits.
fn is_order<P: PtrKey, T: Drop, A: ChainArenaTrait<P, Entry<T>> + Drop, V: Values<T>>(
    list: &mut PlayList<P, T, A>,
    order: u32,
) -> bool {
    let mut digits: u32 = 0;
    for _ in 0..4 {
        if let Some(song) = list.play_next() {
            digits = digits.wrapping_mul(10).wrapping_add(V::number_of(song));
        }
    }
    for _ in 0..4 {
        list.undo();
    }
    digits == order
}

// Returns whether groups of four songs are moved to the front.
fn groups_are_moved<P: PtrKey, T: Drop, A: ChainArenaTrait<P, Entry<T>> + Drop, V: Values<T>>(
    alloc: Global,
    list: &mut PlayList<P, T, A>,
    (one, two, three, four): (P, P, P, P),
) -> Result<bool, ChainInsertionError> {
    let added = is_order::<P, T, A, V>(list, 1234);
    let moved = list.group_to_front(three, four) && is_order::<P, T, A, V>(list, 3412);
    let refused = !list.group_to_front(two, four) && is_order::<P, T, A, V>(list, 3412);
    let mut groups = Vec::new(alloc);
    groups.push((one, two))?;
    groups.push((three, three))?;
    list.shuffle(groups.as_slice());
    Ok(added && moved && refused && is_order::<P, T, A, V>(list, 3124))
}

// Creates a play list without songs.
fn new_play_list<P: PtrKey, T: Drop, A: ChainArenaTrait<P, Entry<T>> + Drop>(
    alloc: Global,
) -> Result<PlayList<P, T, A>, ChainInsertionError> {
    let mut songs = Documents::<P, T, A>::new(alloc);
    let queue = songs.new_list()?;
    let played = songs.new_list()?;
    Ok(PlayList {
        songs,
        queue,
        played,
    })
}

// Returns whether a play list plays songs in order, and none if it is empty.
fn plays_in_order<P: PtrKey, T: Drop, A: ChainArenaTrait<P, Entry<T>> + Drop, V: Values<T>>(
    alloc: Global,
) -> Result<bool, ChainInsertionError> {
    let mut list = new_play_list::<P, T, A>(alloc)?;
    let none = list.play_next().is_none() && list.undo().is_none();
    let songs = add_four::<P, T, A, V>(&mut list)?;
    let moved = groups_are_moved::<P, T, A, V>(alloc, &mut list, songs)?;
    Ok(none && moved && has_number::<T, V>(list.play_next(), 3))
}

// Returns 0 if a play list plays songs in order, or 1.
pub fn outcome<P: PtrKey, T: Drop, A: ChainArenaTrait<P, Entry<T>> + Drop, V: Values<T>>(
    alloc: Global,
) -> u32 {
    match plays_in_order::<P, T, A, V>(alloc) {
        Ok(true) => 0,
        _ => 1,
    }
}
