// A whole file of at most as many bytes as the buffer has. A file that can't be opened or read, and one that is longer, is not ok.
#![tactic(auto)]

ghost use Rattle.std.specs.Prelude.{◌≡◌, ◌+◌, ◌≤◌, IsTrue, length, take};
ghost use Rattle.std.specs.Io.KnownBytes.{Consumes, IsAtEnd};
ghost use Rattle.io.specs.Counts.{IsPrefixLen};
ghost use Rattle.files.specs.Path.{joined, path_of};
ghost use Rattle.files.specs.Whole.{IsWhole};
ghost use Rattle.writing.specs.Put.{Put};

use std::env::FillError;
use std::fs;
use std::io::Read;
use std::rt::{Env, Files};

// The most bytes of a path, with the 0 that the system has behind it.
const PATH: usize = 4096;

// A struct and no enum: `IsPrefixLen` holds either way, so a caller takes `&buf[..len]` with no proof file.
#[derive(Clone, Copy)]
pub struct File {
    pub ok: bool,
    pub len: usize,
}

// How many bytes the three files have.
#[derive(Clone, Copy)]
pub struct Sizes {
    pub plant: usize,
    pub rule: usize,
    pub log: usize,
}

// The most bytes of plant.txt, rule.txt and log.txt.
impl File {
    pub const PLANT: usize = 2477;

    pub const RULE: usize = 513;

    pub const LOG: usize = 65520;

    // The constants, pinned by a contract.
    pub fn most() -> Sizes
        ensures plant { result.plant ≡ 2477 }
        ensures rule { result.rule ≡ 513 }
        ensures log { result.log ≡ 65520 }
    {
        Sizes {
            plant: File::PLANT,
            rule: File::RULE,
            log: File::LOG,
        }
    }
}

// 4,096 zeros, which hold any path.
pub fn path_buffer() -> [u8; 4096]
    ensures { length result ≡ 4096 }
{
    [0; 4096]
}

// The folder that the program's argument names, and without an argument the one that it is run in. One that is empty, or longer than a
// path can be, gives no byte, and there is no file in it.
pub fn asked_folder<R: Env>(rt: &R, path: &mut [u8]) -> usize
    ensures { IsPrefixLen result path.new }
{
    match rt.arg(1, path) {
        Ok(len) => len,
        Err(FillError::NotPresent) => this_folder(path),
        Err(FillError::TooLong) => 0,
    }
}

fn this_folder(path: &mut [u8]) -> usize
    ensures { IsPrefixLen result path.new }
{
    if path.is_empty() {
        return 0;
    }
    path[0] = b'.';
    1
}

// A file of a folder.
pub fn read_in<R: Files>(rt: &R, folder: &[u8], name: &[u8], buf: &mut [u8]) -> File
    ensures { IsPrefixLen result.len buf.new }
{
    let mut path = [0u8; PATH];
    let len = path_in(folder, name, &mut path);
    read_file(rt, &path[..len], buf)
}

// `folder/name` at the start of `path`; nothing where the folder has no name or the path no room.
fn path_in(folder: &[u8], name: &[u8], path: &mut [u8]) -> usize
    ensures text { take result path.new ≡ path_of (length path.old) folder.now name.now }
    ensures count { IsPrefixLen result path.new }
{
    if folder.is_empty() || path.len() <= folder.len().saturating_add(name.len()) {
        return 0;
    }
    put_path(folder, name, path)
}

fn put_path(folder: &[u8], name: &[u8], path: &mut [u8]) -> usize
    requires { length folder.now + 1 + length name.now ≤ length path.old }
    ensures { Put path.old 0 (joined folder.now name.now) path.new result }
{
    let slash = writing::put_text(path, 0, folder);
    let behind = writing::put_text(path, slash, b"/");
    writing::put_text(path, behind, name)
}

// A path is text to the library that opens it: one that is not UTF-8 names no file.
pub fn read_file<R: Files>(rt: &R, path: &[u8], buf: &mut [u8]) -> File
    ensures { IsPrefixLen result.len buf.new }
{
    let Ok(name) = str::from_utf8(path) else {
        return File { ok: false, len: 0 };
    };
    match fs::open(rt, name) {
        Ok(mut file) => read_whole(&mut file, buf),
        Err(_) => File { ok: false, len: 0 },
    }
}

// One byte is asked for behind the last one: a file that fits has ended there, a longer one has not, and one that can't be read fails.
pub fn read_whole<F: Read>(file: &mut F, buf: &mut [u8]) -> File
    ensures count { IsPrefixLen result.len buf.new }
    ensures whole { IsWhole (F.remaining file.old) result.ok result.len buf.new }
{
    let filled = fill(file, buf);
    File {
        ok: filled.ok && has_ended(file),
        len: filled.len,
    }
}

fn has_ended<F: Read>(file: &mut F) -> bool
    ensures { IsTrue result → IsAtEnd (F.remaining file.old) }
{
    let mut more = [0u8; 1];
    match file.read(&mut more) {
        Ok(len) => len == 0,
        Err(_) => false,
    }
}

// Reads until the buffer is full, the input ends or a read fails, and that is not ok.
pub fn fill<F: Read>(file: &mut F, buf: &mut [u8]) -> File
    ensures count { IsPrefixLen result.len buf.new }
    ensures bytes { Consumes (F.remaining file.old) (F.remaining file.new) (take result.len buf.new) }
{
    let mut len = 0;
    while len < buf.len() {
        match file.read(&mut buf[len..]) {
            Ok(0) => break,
            Ok(got) => len += got,
            Err(_) => return File { ok: false, len },
        }
    }
    File { ok: true, len }
}

#[cfg(test)]
mod tests {
    use super::*;
    use std::io;
    use std::test::Fail;

    // A reader that gives two bytes a call, and fails once at the call of the given number.
    #[derive(Clone, Copy)]
    struct Faulty {
        call: u32,
        fails_at: u32,
        left: u32,
    }

    impl Read for Faulty {
        fn read(&mut self, buf: &mut [u8]) -> io::Result<usize> {
            let call = self.call;
            self.call = call.saturating_add(1);
            if call == self.fails_at {
                return Err(io::Error::from(io::ErrorKind::Interrupted));
            }
            if self.left == 0 {
                return Ok(0);
            }
            if buf.len() < 2 {
                return Ok(buf.len());
            }
            self.left -= 1;
            Ok(2)
        }
    }

    // The reader and whether the file is ok.
    fn is_ok(fails_at: u32, left: u32) -> bool {
        let mut buf = [0u8; 6];
        let mut file = Faulty {
            call: 0,
            fails_at,
            left,
        };
        read_whole(&mut file, &mut buf).ok
    }

    #[test]
    fn fails_in_mid_stream(rt: HostRuntime) -> Result<(), Fail> {
        assert!(rt; is_ok(9, 3));
        assert!(rt; is_ok(9, 0));
        assert!(rt; !is_ok(9, 4));
        assert!(rt; !is_ok(0, 3));
        assert!(rt; !is_ok(1, 3));
        assert!(rt; !is_ok(2, 3));
        assert!(rt; !is_ok(3, 3));
        Ok(())
    }

    #[test]
    fn reads_what_fits(rt: HostRuntime) -> Result<(), Fail> {
        let mut buf = [0u8; 4];
        let mut text: &[u8] = b"abcd";
        let file = read_whole(&mut text, &mut buf);
        assert!(rt; file.ok && file.len == 4);
        let mut long: &[u8] = b"abcde";
        assert!(rt; !read_whole(&mut long, &mut buf).ok);
        Ok(())
    }
}
