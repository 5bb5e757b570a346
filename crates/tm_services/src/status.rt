//! The status codes of the services (OSEK/VDX OS 2.2.3, 13.2.1); the numbers are this project's.

pub const E_OK: u32 = 0;

pub const E_OS_ACCESS: u32 = 1;

pub const E_OS_ID: u32 = 3;

pub const E_OS_LIMIT: u32 = 4;

pub const E_OS_NOFUNC: u32 = 5;

pub const E_OS_RESOURCE: u32 = 6;

pub const E_OS_STATE: u32 = 7;

pub const E_OS_VALUE: u32 = 8;
