mod gen16;
mod gen24;
mod gen32;
mod gen64;
mod gen8;

pub use gen8::Gen8;
pub use gen16::Gen16;
pub use gen24::Gen24;
pub use gen32::Gen32;
pub use gen64::Gen64;
