//! Words of a mix ring and of the card's position, and a sum that is saturated.

#[test]
fn three_samples_make_one_word(rt: HostRuntime) {
    let empty = lap_word::pack(0, 0, 0);
    assert!(rt; empty == 8388608);
    let first = lap_word::add(empty, 30000);
    assert!(rt; first == 25195824);
    let second = lap_word::add(first, 10000);
    assert!(rt; second == 41983040);
    let word = lap_word::add(second, -20000);
    assert!(rt; word == 58740256);
    assert!(rt; lap_word::lap(word) == 0);
    assert!(rt; lap_word::count(word) == 3);
    assert!(rt; lap_word::sum(word) == 20000);
    let next = lap_word::taken(word);
    assert!(rt; next == 4303355904);
    assert!(rt; lap_word::lap(next) == 1);
}

#[test]
fn a_withdrawn_sample_counts_twice(rt: HostRuntime) {
    let added = lap_word::add(lap_word::pack(0, 0, 0), 5);
    assert!(rt; added == 25165829);
    let word = lap_word::withdraw(added, 5);
    assert!(rt; word == 41943040);
    assert!(rt; lap_word::count(word) == 2);
    assert!(rt; lap_word::sum(word) == 0);
}

#[test]
fn the_lowest_sum_of_64_samples_fits(rt: HostRuntime) {
    let word = lap_word::pack(0, 64, -2097152);
    assert!(rt; word == 1080033280);
    assert!(rt; lap_word::count(word) == 64);
    assert!(rt; lap_word::sum(word) == -2097152);
}

/// A count and a sum that a word has, a sample, and whether it can be added and withdrawn.
type Room = (u8, i32, i16, bool, bool);

const ROOMS: &[Room] = &[
    (0, 0, -32768, true, true),
    (254, 0, 1, true, true),
    (255, 0, 1, false, false),
    (1, 8388607, 1, false, true),
    (1, 8388606, 1, true, true),
    (1, -8388608, 1, true, false),
    (1, -8388608, -1, false, true),
];

// Whether a word of this count and sum has this room for the sample.
fn has_room(room: &Room) -> bool {
    let (count, sum, sample, added, withdrawn) = *room;
    if sum < -8388608 || sum > 8388607 {
        return false;
    }
    let word = lap_word::pack(7, count, sum);
    lap_word::can_add(word, sample) == added && lap_word::can_withdraw(word, sample) == withdrawn
}

#[test]
fn a_word_takes_what_it_has_room_for(rt: HostRuntime) {
    for room in ROOMS {
        assert!(rt; has_room(room), "at {}", room.1);
    }
    assert!(rt; lap_word::can_take(lap_word::pack(4294967294, 1, 5)));
    assert!(rt; !lap_word::can_take(lap_word::pack(4294967295, 0, 0)));
}

/// Positions, whether the card is gone, and their words.
const POSITIONS: &[(u64, bool, u64)] = &[
    (0, false, 0),
    (192, false, 192),
    (0, true, 9223372036854775808),
    (1099511627264, true, 9223373136366403072),
    (9223372036854775807, true, 18446744073709551615),
];

// Whether this is the word of a position and a gone bit, and gives both back.
fn is_word_of(word: u64, position: u64, gone: bool) -> bool {
    position < 9223372036854775808
        && lap_word::position_word(position, gone) == word
        && lap_word::position_of(word) == position
        && lap_word::gone_of(word) == gone
}

#[test]
fn a_position_word_has_the_position_and_the_gone_bit(rt: HostRuntime) {
    for (position, gone, word) in POSITIONS {
        assert!(rt; is_word_of(*word, *position, *gone), "at {position}");
    }
}

/// Sums, and the samples that they are saturated to.
const SATURATED: &[(i32, i16)] = &[
    (40000, 32767),
    (32767, 32767),
    (20000, 20000),
    (-32768, -32768),
    (-2097152, -32768),
];

#[test]
fn cuts_only_what_passes_the_range(rt: HostRuntime) {
    for (sum, sample) in SATURATED {
        assert!(rt; lap_word::clamp(*sum) == *sample, "at {sum}");
    }
}
