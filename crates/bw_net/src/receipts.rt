//! Files of receipts, by the calls of std.
ghost use Rattle.std.specs.Prelude.{◌≡◌, IfOk, None};
ghost use Rattle.bw_net.specs.SeenFiles.{opened_receipts_path};

use crate::counting::counted;
use crate::recordings::HostRecordings;
use crate::states::sync_folder_of;
use bw_ports::{ReceiptFiles, ReceiptKeeping};
use std::alloc::Global;
use std::fs::{File, OpenOptions};
use std::io::{self, Error, ErrorKind, Read, Seek, SeekFrom, Write};

/// The files of receipts on this machine. It doesn't report their text, since no clause of std says
/// what a file holds: that a line stands alone, also where others append at once, is tested.
#[derive(Drop)]
pub struct HostReceipts<'a> {
    rt: &'a HostRuntime,
    failures: u64,
}

/// A file of receipts that was begun. It is opened again for each line, so that a line isn't lost where
/// the file was moved away since.
#[derive(Drop)]
pub struct ReceiptFile {
    path: String,
}

impl ReceiptFiles for HostReceipts<'_> {
    ghost use Rattle.bw_net.specs.SeenFiles.{opened_receipts_path, receipts_failures};

    type File = ReceiptFile;

    ghost receipts_at = { λ s path. None };

    ghost path_of = { opened_receipts_path };

    ghost failures = { receipts_failures };

    fn begin(&mut self, path: &str) -> io::Result<ReceiptFile> {
        counted(begin_file(self.rt, path), &mut self.failures)
    }

    fn append(&mut self, file: &mut ReceiptFile, line: &[u8]) -> io::Result<()> {
        counted(
            append_line(self.rt, file.path.as_str(), line),
            &mut self.failures,
        )
    }
}

impl<'a> ReceiptKeeping for HostRecordings<'a> {
    type Receipts = HostReceipts<'a>;

    ghost noted_at = { λ s path. None };

    fn receipts(&self) -> HostReceipts<'a> {
        HostReceipts {
            rt: self.rt,
            failures: 0,
        }
    }
}

/// Makes a file of receipts, if it isn't there.
fn begin_file(rt: &HostRuntime, path: &str) -> io::Result<ReceiptFile>
    ensures { IfOk result (λ file. opened_receipts_path file ≡ path.now) }
{
    let kept = String::from_str(rt.alloc(), path)?;
    let _file = open_receipts(rt, path)?;
    // Some file systems can't sync a folder. Without it a loss of power may take an empty file away.
    let _ = sync_folder_of(rt, path);
    Ok(ReceiptFile { path: kept })
}

/// A file of receipts, made if it isn't there. What isn't a file is opened without waiting, since it
/// is opened for both reading and writing.
fn open_receipts(rt: &HostRuntime, path: &str) -> io::Result<File> {
    let file = OpenOptions::new()
        .read(true)
        .append(true)
        .create(true)
        .open(rt, path)?;
    if !file.metadata()?.is_file() {
        return Err(Error::new(ErrorKind::InvalidInput, "it isn't a file"));
    }
    Ok(file)
}

/// Appends a line and syncs it. One call of the system writes it all, so that what others append at
/// the same time comes before or after it.
fn append_line(rt: &HostRuntime, path: &str, line: &[u8]) -> io::Result<()> {
    let mut file = open_receipts(rt, path)?;
    let text = line_alone(rt.alloc(), &mut file, line)?;
    file.write_all(&text)?;
    file.sync_data()
}

/// A line, and a line feed before it where the last line of the file has none.
fn line_alone(alloc: Global, file: &mut File, line: &[u8]) -> io::Result<Vec<u8>> {
    let mut text = Vec::new(alloc);
    if is_line_open(file)? {
        text.push(b'\n')?;
    }
    text.extend_from_slice(line)?;
    Ok(text)
}

/// Whether no line feed ends the last line of a file, as where a full disk cut it.
fn is_line_open(file: &mut File) -> io::Result<bool> {
    if file.metadata()?.len() == 0 {
        return Ok(false);
    }
    let mut last = [0];
    file.seek(SeekFrom::End(-1))?;
    file.read_exact(&mut last)?;
    Ok(last[0] != b'\n')
}
