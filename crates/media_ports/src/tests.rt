mod medias;
