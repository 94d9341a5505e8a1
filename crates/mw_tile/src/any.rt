//! Windows of sets and of pictures in levels of grey. What is seen of one is a kind, a maxval and levels; how the samples
//! are held is this file's own business.
//!
//! ```text
//! let window = AnyWindow::grey8(Window::cut(alloc, &plane, place)?, 255);
//! match window.view() {
//!     WindowView::Bits(set) => ..
//!     WindowView::Grey8(levels, maxval) => ..
//!     WindowView::Grey16(levels, maxval) => ..
//! }
//! ```

use crate::Window;
use mw_model::{Kind, Rect};
use mw_pixel::Bit;
use std::marker::Model;

/// The samples of a window, to be looked at; beside them the maxval of the source.
#[derive(Clone, Copy)]
pub enum WindowView<'a> {
    Bits(&'a Window<Bit>),
    Grey8(&'a Window<u8>, u8),
    Grey16(&'a Window<u16>, u16),
}

#[derive(Drop)]
enum Samples {
    Bits(Window<Bit>),
    Grey8(Window<u8>, u8),
    Grey16(Window<u16>, u16),
}

/// A window of a source, with the source's kind and maxval; the maxval of a set is 1.
#[derive(Drop)]
pub struct AnyWindow {
    content: Samples,
}

impl Model for AnyWindow {
    ghost use Rattle.mw_tile.specs.Windows.{SourceWindow};

    ghost Value = { SourceWindow };

    ghost use Rattle.mw_tile.specs.AnyWindows.{window_held, WindowIsHeld};

    ghost view = { λ a. window_held a.content };

    ghost invariant = { λ a. WindowIsHeld a.content };
}

impl AnyWindow {
    ghost use Rattle.std.specs.Prelude.{◌≡◌, ◌↔◌, ◌≤◌, IsTrue};
    ghost use Rattle.mw_tile.specs.AnyWindows.{set_window, grey_window, ShowsWindow};

    /// The window of a set.
    pub fn bits(window: Window<Bit>) -> AnyWindow
        ensures { result ≡ set_window window }
    {
        AnyWindow {
            content: Samples::Bits(window),
        }
    }

    /// The window of a grey source with a maxval from 1 to 255.
    pub fn grey8(window: Window<u8>, maxval: u8) -> AnyWindow
        requires { 1 ≤ maxval }
        ensures { result ≡ grey_window window maxval }
    {
        AnyWindow {
            content: Samples::Grey8(window, maxval),
        }
    }

    /// The window of a grey source with a maxval from 256 to 65,535.
    pub fn grey16(window: Window<u16>, maxval: u16) -> AnyWindow
        requires { 256 ≤ maxval }
        ensures { result ≡ grey_window window maxval }
    {
        AnyWindow {
            content: Samples::Grey16(window, maxval),
        }
    }

    /// What is inside, to be looked at.
    pub fn view(&self) -> WindowView<'_>
        ensures { ShowsWindow self.now result }
    {
        match &self.content {
            Samples::Bits(w) => WindowView::Bits(w),
            Samples::Grey8(w, maxval) => WindowView::Grey8(w, *maxval),
            Samples::Grey16(w, maxval) => WindowView::Grey16(w, *maxval),
        }
    }

    /// The rectangle of the frame that the window has.
    pub fn place(&self) -> Rect
        ensures { result ≡ self.now.view.place }
    {
        match &self.content {
            Samples::Bits(w) => w.place(),
            Samples::Grey8(w, _) => w.place(),
            Samples::Grey16(w, _) => w.place(),
        }
    }

    /// The columns of the frame.
    pub fn frame_width(&self) -> u32
        ensures { result ≡ self.now.view.frame_width }
    {
        match &self.content {
            Samples::Bits(w) => w.frame_width(),
            Samples::Grey8(w, _) => w.frame_width(),
            Samples::Grey16(w, _) => w.frame_width(),
        }
    }

    /// The rows of the frame.
    pub fn frame_height(&self) -> u32
        ensures { result ≡ self.now.view.frame_height }
    {
        match &self.content {
            Samples::Bits(w) => w.frame_height(),
            Samples::Grey8(w, _) => w.frame_height(),
            Samples::Grey16(w, _) => w.frame_height(),
        }
    }

    /// The kind of the source.
    pub fn kind(&self) -> Kind
        ensures { result ≡ self.now.kind }
    {
        match &self.content {
            Samples::Bits(_) => Kind::Bit,
            Samples::Grey8(_, _) => Kind::Grey,
            Samples::Grey16(_, _) => Kind::Grey,
        }
    }

    /// The maxval of the source.
    pub fn maxval(&self) -> u16
        ensures value { result ≡ self.now.maxval }
        ensures some { 1 ≤ result }
    {
        match &self.content {
            Samples::Bits(_) => 1,
            Samples::Grey8(_, maxval) => u16::from(*maxval),
            Samples::Grey16(_, maxval) => *maxval,
        }
    }

    /// Whether both windows show the same: kind and maxval of the source, sides of the frame, place and samples.
    pub fn same(&self, other: &AnyWindow) -> bool
        ensures { IsTrue result ↔ (self.now ≡ other.now) }
    {
        match (&self.content, &other.content) {
            (Samples::Bits(a), Samples::Bits(b)) => a.same(b),
            (Samples::Grey8(a, m), Samples::Grey8(b, n)) => *m == *n && a.same(b),
            (Samples::Grey16(a, m), Samples::Grey16(b, n)) => *m == *n && a.same(b),
            _ => false,
        }
    }
}
