// Tables that are read and written at any place.

ghost use Rattle.std.specs.Prelude.{◌≡◌, slice_index_or, slice_set};

/// What stands at the place, or `absent` past the end.
#[inline(always)]
pub fn read<T: Copy + Drop>(table: &[T], place: usize, absent: T) -> T
    ensures { result ≡ slice_index_or table.now place absent }
{
    if place < table.len() {
        table[place]
    } else {
        absent
    }
}

/// Puts a value at the place. Past the end nothing changes.
#[inline(always)]
pub fn write<T: Copy + Drop>(table: &mut [T], place: usize, value: T)
    ensures { table.new ≡ slice_set table.old place value }
{
    if place < table.len() {
        table[place] = value;
    }
}

/// The low 32 bits of a number.
#[inline(always)]
pub fn low(number: usize) -> u32 {
    (number & 0xffff_ffff) as u32
}
