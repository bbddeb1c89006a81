//! A made-up mailbox.
use mail_io::Memory;
use mail_values::{Bytes, Words};
use mailbox_rows::{Folder, Mailbox, Row, ViewFault};
use std::alloc::Global;

/// The name and the attribute of each folder.
const FOLDERS: [(&str, &str); 12] = [
    ("Archive", "\\Archive"),
    ("Choir & Café", "\\HasNoChildren"),
    ("Drafts", "\\Drafts"),
    ("INBOX", "\\HasNoChildren"),
    ("Junk", "\\Junk"),
    ("Reading list", "\\Flagged"),
    ("Sent", "\\Sent"),
    ("Trash", "\\Trash"),
    ("Years", "\\Noselect"),
    ("Years/2025 <old>", "\\HasNoChildren"),
    ("50% \"off\" + more?", "\\HasNoChildren"),
    ("Übungen #2", "\\HasNoChildren"),
];

/// The UID, the flag, the size, and the header of each message.
const MESSAGES: [(u32, &str, u64, &str); 12] = [
    (
        1,
        "\\Seen",
        1_204,
        "From: Bea Frei <bea@college.example>\r\nSubject: Welcome to the choir\r\nDate: Mon, 5 Jan 2026 08:15:00 +0000\r\n\r\n",
    ),
    (
        2,
        "\\Seen",
        2_311,
        "From: =?utf-8?q?J=C3=BCrgen_Vogt?= <juergen@college.example>\r\nSubject: =?utf-8?q?Proben_im_Caf=C3=A9?=\r\nDate: Tue, 6 Jan 2026 18:40:00 +0100\r\n\r\n",
    ),
    (
        3,
        "\\Seen",
        1_870,
        "From: Bea Frei <bea@college.example>\r\nSubject: =?utf-8?q?Re=3A_Proben_im_Caf=C3=A9?=\r\nDate: Tue, 6 Jan 2026 19:02:00 +0100\r\n\r\n",
    ),
    (
        4,
        "\\Answered",
        2_044,
        "From: =?utf-8?q?J=C3=BCrgen_Vogt?= <juergen@college.example>\r\nSubject: =?utf-8?q?Re=3A_Proben_im_Caf=C3=A9?=\r\nDate: Tue, 6 Jan 2026 19:30:00 +0100\r\n\r\n",
    ),
    (
        5,
        "\\Seen",
        48_512,
        "From: \"Tom & Jerry\" <tom@films.example>\r\nSubject: Tickets <2 for 1> & more\r\nDate: Wed, 7 Jan 2026 12:00:00 +0000\r\n\r\n",
    ),
    (6, "\\Seen", 901, "From: office@college.example\r\n\r\n"),
    (
        7,
        "\\Flagged",
        1_650,
        "From: Carla Rossi <carla@college.example>\r\nSubject: =?utf-8?q?Re=3A_Proben_im_Caf=C3=A9?=\r\nDate: Thu, 8 Jan 2026 07:55:00 +0100\r\n\r\n",
    ),
    (
        8,
        "\\Seen",
        3_120,
        "From: Bea Frei <bea@college.example>\r\nSubject: Re: Tickets <2 for 1> & more\r\nDate: Thu, 8 Jan 2026 09:10:00 +0000\r\n\r\n",
    ),
    (
        9,
        "\\Seen",
        3_377,
        "From: \"Tom & Jerry\" <tom@films.example>\r\nSubject: Re: Tickets <2 for 1> & more\r\nDate: Thu, 8 Jan 2026 09:45:00 +0000\r\n\r\n",
    ),
    (
        10,
        "\\Recent",
        3_590,
        "From: Bea Frei <bea@college.example>\r\nSubject: Re: Tickets <2 for 1> & more\r\nDate: Thu, 8 Jan 2026 10:20:00 +0000\r\n\r\n",
    ),
    (
        11,
        "\\Recent",
        26_214_400,
        "From: =?utf-8?b?0JjRgNC40L3QsCDQktC+0LvQutC+0LLQsA==?= <irina@choir.example>\r\nSubject: =?utf-8?b?0J3QvtGC0Ys=?= (scores)\r\nDate: Fri, 9 Jan 2026 03:00:00 +0300\r\n\r\n",
    ),
    (
        12,
        "\\Recent",
        777,
        "From: Mail Delivery <postmaster@college.example>\r\nSubject: <script>document.title = 'a script ran'</script>\r\nDate: Fri, 9 Jan 2026 06:00:00 +0000\r\n\r\n",
    ),
];

fn words(alloc: Global, word: &str) -> Result<Words, Memory> {
    let mut words = Words::new(alloc);
    words.push(bytes(alloc, word)?)?;
    Ok(words)
}

fn bytes(alloc: Global, text: &str) -> Result<Bytes, Memory> {
    Bytes::from_slice(alloc, text.as_bytes())
}

pub fn folders(alloc: Global) -> Result<Vec<Folder>, Memory> {
    let mut folders = Vec::new(alloc);
    for (name, attribute) in FOLDERS {
        folders.push(Folder {
            name: bytes(alloc, name)?,
            attributes: words(alloc, attribute)?,
        })?;
    }
    Ok(folders)
}

pub fn row(alloc: Global, flag: &str, size: u64, header: &str) -> Result<Row, Memory> {
    Ok(Row {
        flags: words(alloc, flag)?,
        modseq: 20,
        internal: 1_767_225_600,
        size,
        header: bytes(alloc, header)?,
    })
}

/// A folder that has no messages yet.
pub fn empty(alloc: Global) -> Result<Mailbox, Memory> {
    Ok(Mailbox::new(alloc, bytes(alloc, "Choir & Café")?))
}

/// The folder with its messages.
pub fn filled(alloc: Global) -> Result<Mailbox, ViewFault> {
    let mut mailbox = empty(alloc)?;
    for (uid, flag, size, header) in MESSAGES {
        mailbox.put(uid, row(alloc, flag, size, header)?)?;
    }
    Ok(mailbox)
}
