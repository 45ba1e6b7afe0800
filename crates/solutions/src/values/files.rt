//! What belongs to the values of one file.

ghost use Rattle.std.specs.Prelude.{◌≡◌, ◌≢◌, ◌<◌, ◌≤◌, ◌==◌, ℕ, length, take, count_by, slice_index};
ghost use Rattle.solutions.specs.Files.{in_file, place_in};

/// Copies the entries of the values of a file, in order, to the front of `into`, and tells how many there are. `files`
/// has the file of each value, and `items` an entry for each.
pub(crate) fn gather<T: Copy>(files: &[usize], file: usize, items: &[T], into: &mut [T]) -> usize
    requires each { length items.now ≡ length files.now }
    requires room { length files.now ≤ length into.old }
    ensures entries { take result into.new ≡ in_file files.now file items.now }
    ensures few { result ≤ length files.now }
    ensures counted { result ≡ count_by (λ other. other == file) files.now }
{
    let mut count = 0;
    for k in 0..files.len() {
        if files[k] == file {
            into[count] = items[k];
            count += 1;
        }
    }
    count
}

/// Writes for the values of a file, in order, what `from` has for them.
pub(crate) fn spread(files: &[usize], file: usize, from: &[usize], numbers: &mut [usize])
    requires each { length numbers.old ≡ length files.now }
    requires room { length from.now ≡ count_by (λ other. other == file) files.now }
    ensures entries { in_file files.now file numbers.new ≡ from.now }
    ensures others { (k : ℕ) → slice_index files.now k ≢ file → slice_index numbers.new k ≡ slice_index numbers.old k }
{
    let mut count = 0;
    for k in 0..files.len() {
        if files[k] == file {
            numbers[k] = from[count];
            count += 1;
        }
    }
}

/// The value of the file `file` with `place` values of that file before it.
pub(crate) fn value_at(files: &[usize], file: usize, place: usize) -> usize
    requires { place < count_by (λ other. other == file) files.now }
    ensures there { result < length files.now }
    ensures file { slice_index files.now result ≡ file }
    ensures place { place_in files.now file result ≡ place }
{
    let mut before = 0;
    let mut found = 0;
    for k in 0..files.len() {
        if files[k] == file {
            if before == place {
                found = k;
            }
            before += 1;
        }
    }
    found
}
