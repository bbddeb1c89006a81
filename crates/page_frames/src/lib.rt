//! What the pages of the site share: the frame, links, forms, and the addresses of the site.
//!
//! A page is written into a [`PageOut`](page_writer::PageOut): [`open_page`], the content, [`close_page`]. [`finish_page`] then gives its
//! bytes, and says that they read as the page's tokens and load the style sheet alone.
#![tactic(auto)]

mod addresses;
mod elements;
mod forms;
mod laws;
mod pages;

pub use addresses::{
    folder_query, images_address, list_address, message_path, part_address, show_address,
    show_address_of, shown_part_address,
};
pub use elements::{open, open_with, open_with_three, open_with_two, write_element, write_link};
pub use forms::{
    close_form, open_form, write_hidden, write_password, write_text_area, write_visible,
};
pub use laws::frame_pages_are_safe;
pub use pages::{close_page, finish_page, open_page, write_heading};
