//! Files in a list of names and bytes: the first of a name, and its next bytes.
ghost use Rattle.std.specs.Prelude.{MatchOption, Some, None, ◌≡◌, ◌≤◌, ◌<◌, length, take, drop, []};
ghost use Rattle.io_edge.specs.Listed.{file_named, file_at, or_empty, left_at, IsPlaceOf};
ghost use Rattle.io_edge.specs.Shelves.{ReadsFrom};

/// The place of the first file of a name.
pub fn find(files: &[(String, Vec<u8>)], name: &str) -> usize
    ensures place { file_at files.now result ≡ file_named files.now name.now }
    ensures within { result ≤ length files.now }
{
    match files.split_first() {
        None => 0,
        Some((file, rest)) => {
            if file.0.as_str() == name {
                0
            } else {
                find(rest, name) + 1
            }
        }
    }
}

/// The bytes of the file at a place.
fn bytes_of(files: &[(String, Vec<u8>)], current: usize) -> &[u8]
    ensures { result.now ≡ or_empty (file_at files.now current) }
{
    match files.split_first() {
        None => &[],
        Some((file, rest)) => {
            if current == 0 {
                file.1.as_slice()
            } else {
                bytes_of(rest, current - 1)
            }
        }
    }
}

/// What comes after the first bytes.
fn rest_of(file: &[u8], at: usize) -> &[u8]
    ensures { result.now ≡ drop at file.now }
{
    if at <= file.len() { &file[at..] } else { &[] }
}

/// Copies the next bytes, at most so many, into the front of the buffer.
fn copy_next(rest: &[u8], buf: &mut [u8], most: usize) -> usize
    requires room { 0 < length buf.old }
    requires most { 0 < most }
    ensures within { result ≤ length buf.old }
    ensures there { result ≤ length rest.now }
    ensures piece { result ≤ most }
    ensures bytes { take result buf.new ≡ take result rest.now }
    ensures end { result ≡ 0 → rest.now ≡ [] }
{
    let count = rest.len().min(buf.len()).min(most);
    buf[..count].copy_from_slice(&rest[..count]);
    count
}

/// The place of the first file of a name, where there is one.
pub fn look_up(files: &[(String, Vec<u8>)], name: &str) -> Option<usize>
    ensures { MatchOption result (file_named files.now name.now ≡ None) (IsPlaceOf files.now name.now) }
{
    match files.split_first() {
        None => None,
        Some((file, rest)) => {
            if file.0.as_str() == name {
                return Some(0);
            }
            match look_up(rest, name) {
                None => None,
                Some(at) => Some(at + 1),
            }
        }
    }
}

/// Takes the next bytes of the file at a place, at most `most`, into the front of the buffer.
pub fn read_next(
    files: &[(String, Vec<u8>)],
    current: usize,
    at: &mut usize,
    buf: &mut [u8],
    most: usize,
) -> usize
    requires room { 0 < length buf.old }
    requires most { 0 < most }
    ensures within { result ≤ length buf.old }
    ensures piece { result ≤ most }
    ensures bytes { ReadsFrom (left_at files.now current at.old) (Some (left_at files.now current at.new)) result buf.new }
{
    let taken = copy_next(rest_of(bytes_of(files, current), *at), buf, most);
    if taken > 0 {
        *at += taken;
    }
    taken
}
