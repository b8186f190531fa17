mod inx16;
mod inx32;
mod inx64;
mod inx8;

pub use inx8::Inx8;
pub use inx16::Inx16;
pub use inx32::Inx32;
pub use inx64::Inx64;
