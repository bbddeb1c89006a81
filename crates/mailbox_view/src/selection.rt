//! Which folder responses concern.
ghost use Rattle.std.specs.Prelude.{◌≡◌};
ghost use Rattle.mailbox_view.specs.Selections.{nothing_selected, muted, entered, opened, with_highest, with_validity, with_no_modseq, selecting, first_if, left_at};

/// Which of the folders is selected, and which of them responses concern (RFC 9051 §6.3.2, RFC 7162 §3.2.11).
#[derive(Clone, Copy)]
pub struct Selection {
    /// The first of the folders is selected.
    pub is_selected: bool,
    /// The place of the folder that responses concern.
    pub concerned: Option<usize>,
    /// In a SELECT that leaves a folder, before CLOSED.
    pub is_leaving: bool,
    /// The last SELECT of this dial was answered OK.
    pub was_ok: bool,
    /// The greatest HIGHESTMODSEQ told since the selection.
    pub highest: u64,
    /// Since the selection a UIDVALIDITY was told.
    pub has_validity: bool,
    /// Since the selection NOMODSEQ was told.
    pub has_no_modseq: bool,
}

impl Selection {
    /// The selection of no folder.
    pub fn nothing() -> Self
        ensures { result ≡ nothing_selected }
    {
        Selection {
            is_selected: false,
            concerned: None,
            is_leaving: false,
            was_ok: false,
            highest: 0,
            has_validity: false,
            has_no_modseq: false,
        }
    }

    /// Selects no folder, until the next SELECT.
    pub fn mute(&mut self)
        ensures { self.new ≡ muted self.old }
    {
        self.is_selected = false;
        self.concerned = None;
    }

    /// The folder that responses concern once the one that is left is closed.
    fn first_if_selected(&self) -> Option<usize>
        ensures { result ≡ first_if self.now.is_selected }
    {
        if self.is_selected { Some(0) } else { None }
    }

    /// Takes note of CLOSED: responses concern the new folder.
    pub fn enter(&mut self)
        ensures { self.new ≡ entered self.old }
    {
        self.concerned = self.first_if_selected();
        self.is_leaving = false;
    }

    /// Takes note of the OK of a SELECT.
    pub fn open(&mut self)
        ensures { self.new ≡ opened self.old }
    {
        self.enter();
        self.was_ok = true;
    }

    /// Takes note of a HIGHESTMODSEQ of the new folder.
    pub fn note_highest(&mut self, modseq: u64)
        ensures { self.new ≡ with_highest modseq self.old }
    {
        if !self.is_leaving {
            self.highest = self.highest.max(modseq);
        }
    }

    /// Takes note that the new folder has a UIDVALIDITY.
    pub fn note_validity(&mut self)
        ensures { self.new ≡ with_validity self.old }
    {
        if !self.is_leaving {
            self.has_validity = true;
        }
    }

    /// Takes note that the new folder has no MODSEQ.
    pub fn note_no_modseq(&mut self)
        ensures { self.new ≡ with_no_modseq self.old }
    {
        if !self.is_leaving {
            self.has_no_modseq = true;
        }
    }

    /// The place of the folder that is left, after the new one was moved to the front. It may be the same.
    fn left_at(&self, same: bool) -> Option<usize>
        ensures { result ≡ left_at same self.now }
    {
        if !self.is_selected {
            return None;
        }
        if same { Some(0) } else { Some(1) }
    }

    /// Begins to select the first folder, which may be the one that was selected.
    pub fn select(&mut self, same: bool)
        ensures { self.new ≡ selecting same self.old }
    {
        let concerned = if self.was_ok {
            self.left_at(same)
        } else {
            Some(0)
        };
        *self = Selection {
            is_selected: true,
            concerned,
            is_leaving: self.was_ok,
            was_ok: false,
            highest: 0,
            has_validity: false,
            has_no_modseq: false,
        };
    }
}
