//! A watcher of uploads that shows each by a line.
use crate::batch::BatchPart;
use crate::measuring::{measure_file, measure_samples};
use crate::screen::Screen;
use crate::shared::SharedProgress;
use crate::watch::{SamplesSent, UploadWatch};
use bw_model::Name;
use bw_ports::{RecordingFiles, Stopwatch};
use bw_recorder::RecordingFile;
use bw_sender::Sender;
use bw_upload::{LinkEvent, Observer};
use std::alloc::Global;

/// Measures what is sent, and shows how far it is by a line.
#[derive(Drop)]
pub struct LineWatch<'a, F, S, T> {
    /// The files of recordings, which are measured.
    pub files: F,
    /// The line.
    pub line: &'a SharedProgress<S, T>,
}

impl<F, S: Screen + Drop, T: Stopwatch + Drop> Observer for LineWatch<'_, F, S, T> {
    fn link(&mut self, event: LinkEvent, sender: &Sender) {
        self.line.follow_link(event, sender);
    }

    fn settled(&mut self, sender: &Sender) {
        self.line.count(sender);
    }
}

impl<F: RecordingFiles, S: Screen + Drop, T: Stopwatch + Drop> UploadWatch
    for LineWatch<'_, F, S, T> {
    fn part(&mut self, number: u32, count: u32) {
        self.line.set_part(BatchPart { number, count });
    }

    fn begin_file(&mut self, alloc: Global, name: &Name, file: &RecordingFile<'_>) {
        if !self.line.is_there() {
            return;
        }
        if let Some(measure) = measure_file(alloc, &mut self.files, file) {
            self.line.begin(name.copy(), measure);
        }
    }

    fn begin_samples(&mut self, alloc: Global, name: &Name, samples: &SamplesSent<'_>) {
        if !self.line.is_there() {
            return;
        }
        let SamplesSent { file, pcm, extent } = samples;
        if let Some(measure) = measure_samples(alloc, &mut self.files, file, *pcm, *extent) {
            self.line.begin(name.copy(), measure);
        }
    }

    fn end(&mut self) {
        self.line.end();
    }
}
