//! Uploads as they travel: their headers, the answers to them, and the sender's part.
#![tactic(auto)]

mod answer;
mod excerpt;
mod head;
mod law;
mod line;
mod marks;
mod resume;
mod uploader;

pub use answer::{Answer, one_answer};
pub use excerpt::Excerpt;
pub use head::{Kind, UploadHead, Version, one_head};
pub use law::{fronts_of_uploads, one_saying};
pub use line::{Line, Words};
pub use resume::{Resume, one_resume};
pub use uploader::{UploadFault, Uploader, file_upload};
